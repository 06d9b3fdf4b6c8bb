// Worked answers of both rules.
ghost use Rattle.flow.specs.Worked.{Worked};

/// Worked answers, proved of the definitions that the rules meet.
pub fn worked_answers()
    ensures { Worked }
{}

#[cfg(test)]
mod tests {
    use crate::central::Central;
    use crate::flux::Flux;
    use crate::pond::Pond;
    use crate::rule::FlowRule;
    use crate::rules::Rules;
    use crate::side::Side;

    // Whether a rule answers these three numbers.
    fn answers<R: FlowRule>(
        rule: &R,
        one: Side,
        two: Side,
        flow: i64,
        push: i64,
        drift: i64,
    ) -> bool {
        rule.between(one, two) == Flux { flow, push, drift }
    }

    #[test]
    fn rules_answer(rt: HostRuntime) {
        let dry = Side { h: 0, u: 0, v: 0 };
        let thin = Side { h: 1, u: 0, v: 0 };
        let metre = Side {
            h: 1000,
            u: 0,
            v: 0,
        };
        let stream = Side {
            h: 100,
            u: 50,
            v: 20,
        };
        assert!(rt;
            answers(&Central, metre, dry, 1_566_000, 2_452_500_000, 0),
            "a metre falls"
        );
        assert!(rt;
            answers(&Central, dry, thin, -49, 2452, 0),
            "a millimetre falls back"
        );
        assert!(rt;
            answers(&Central, stream, stream, 5000, 49_300_000, 100_000),
            "a stream"
        );
        assert!(rt; answers(&Central, dry, dry, 0, 0, 0), "no wave runs");
        assert!(rt;
            answers(&Pond, metre, dry, 3_132_000, 2_452_500_000, 0),
            "a pond"
        );
        assert!(rt;
            answers(&Pond, dry, metre, -3_132_000, 2_452_500_000, 0),
            "the other way"
        );
        assert!(rt;
            answers(&Rules::Central, dry, thin, -49, 2452, 0),
            "central by name"
        );
        assert!(rt;
            answers(&Rules::Pond, metre, dry, 3_132_000, 2_452_500_000, 0),
            "pond by name"
        );
    }

    #[test]
    fn sides_exist_in_range(rt: HostRuntime) {
        assert!(rt; Side::new(30_000, -10_000, 10_000).is_some(), "the fastest");
        assert!(rt; Side::new(30_001, 0, 0).is_none(), "too deep");
        assert!(rt; Side::new(1, 10_001, 0).is_none(), "too fast across");
        assert!(rt; Side::new(1, 0, -10_001).is_none(), "too fast along");
        assert!(rt; Side::new(0, 0, 1).is_none(), "dry, with a speed");
    }
}
