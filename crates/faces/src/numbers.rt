// The numbers of one face, for any rule.
ghost use Rattle.std.specs.Prelude.{◌≡◌, ◌*◌, ◌≤◌, pos, ◌-ℤ◌, unsigned_abs};
ghost use Rattle.runs.specs.Rules.{pressure as pressure_of};
ghost use Rattle.runs.specs.Step.{scaled as scaled_by};
ghost use Rattle.flow.specs.States.{state_of};
ghost use Rattle.faces.specs.Crossings.{wish_of, fall_of, rise_of, drift_of, Small};

use crate::crossing::Crossing;
use crate::pace::Pace;
use flow::flux::Flux;
use flow::rule::FlowRule;
use flow::side::Side;

// A length is asked to be at most 64 and no type of its own: it is one number, a side of a leaf, and `scaled` would take the type apart again.
/// What a face of `length` squares between two sides does in a step, by a rule.
pub fn cross<R: FlowRule>(rule: &R, one: Side, two: Side, length: u32, pace: Pace) -> Crossing
    requires { length ≤ 64 }
    ensures wish { result.wish ≡ wish_of (R.meaning rule.now) pace.width pace.time length (state_of one) (state_of two) }
    ensures fall { result.fall ≡ fall_of (R.meaning rule.now) pace.width pace.time length (state_of one) (state_of two) }
    ensures rise { result.rise ≡ rise_of (R.meaning rule.now) pace.width pace.time length (state_of one) (state_of two) }
    ensures drift { result.drift ≡ drift_of (R.meaning rule.now) pace.width pace.time length (state_of one) (state_of two) }
    ensures small { Small result.wish result.fall result.rise result.drift }
{
    let flux = capped(rule, one, two);
    Crossing {
        wish: scaled(flux.flow, length, pace),
        fall: scaled(excess(flux.push, one), length, pace),
        rise: scaled(excess(flux.push, two), length, pace),
        drift: scaled(flux.drift, length, pace),
    }
}

/// A rule's answer, within the largest caps that a rule can have.
fn capped<R: FlowRule>(rule: &R, one: Side, two: Side) -> Flux
    ensures flow { result.flow ≡ (R.meaning rule.now).flow (state_of one) (state_of two) }
    ensures push { result.push ≡ (R.meaning rule.now).push (state_of one) (state_of two) }
    ensures drift { result.drift ≡ (R.meaning rule.now).drift (state_of one) (state_of two) }
    ensures flow_cap { unsigned_abs result.flow ≤ 1200000000 }
    ensures push_cap { unsigned_abs result.push ≤ 25000000000000 }
    ensures drift_cap { unsigned_abs result.drift ≤ 25000000000000 }
{
    rule.between(one, two)
}

/// What a push is more than the pressure of a side's own depth.
fn excess(push: i64, side: Side) -> i64
    requires { unsigned_abs push ≤ 25000000000000 }
    ensures value { result ≡ push -ℤ pos (pressure_of side.h) }
    ensures small { unsigned_abs result ≤ 30000000000000 }
{
    push - side.pressure() as i64
}

// The length as in `cross`.
/// What passes across `length` squares in a step, of an amount for each millimetre and second.
fn scaled(amount: i64, length: u32, pace: Pace) -> i64
    requires amount { unsigned_abs amount ≤ 30000000000000 }
    requires length { length ≤ 64 }
    ensures value { result ≡ scaled_by pace.width pace.time amount length }
    ensures small { unsigned_abs result * 125 ≤ unsigned_abs amount * 16 }
{
    amount * (length * pace.time) as i64 / (1_000_000 * pace.width as i64)
}

#[cfg(test)]
mod tests {
    use super::*;
    use flow::central::Central;
    use flow::pond::Pond;

    #[test]
    fn a_metre_falls(rt: HostRuntime) {
        let metre = Side {
            h: 1000,
            u: 0,
            v: 0,
        };
        let dry = Side { h: 0, u: 0, v: 0 };
        let pace = Pace { time: 50, width: 1 };
        let fallen = Crossing {
            wish: 78,
            fall: -122_625,
            rise: 122_625,
            drift: 0,
        };
        assert!(rt; cross(&Central, metre, dry, 1, pace) == fallen, "central");
        assert!(rt;
            cross(&Pond, dry, metre, 2, pace).wish == -313,
            "pond, the other way"
        );
    }
}
