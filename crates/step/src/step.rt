// The step.
ghost use Rattle.std.specs.Prelude.{◌≡◌, ◌*◌, ◌^◌, length, replicate};
ghost use Rattle.basin.specs.Basins.{basin_of, ValidBasin};
ghost use Rattle.basin.specs.Records.{dry};
ghost use Rattle.calls.specs.Replies.{replied};
ghost use Rattle.runs.specs.Calls.{perform, step as a_step};
ghost use Rattle.step.specs.Ends.{work_after};

use crate::ends::{overfull, spread};
use crate::fast::too_fast;
use basin::head::Head;
use basin::leaf::Leaf;
use basin::refusal::Refusal;
use faces::pace::Pace;
use flow::rule::FlowRule;
use tables::survey::Survey;
use tables::validity::validate;
use visits::motion::Motion;
use walks::walk::walk;

/// Moves the water of a valid basin for one step, unless it is too long or a leaf would hold too much, and answers how much it moved. Head and
/// tables come one by one, since the records are read by the walk and written after it.
fn advance<'x, R: FlowRule>(
    head: Head,
    levels: &'x [u8],
    beds: &'x [u16],
    leaves: &mut [Leaf],
    work: &mut [Leaf],
    pace: Pace,
    rule: &'x R,
) -> Result<u64, Refusal>
    requires valid { ValidBasin (basin_of head levels.now beds.now leaves.old) }
    requires width { pace.width ≡ head.width }
    requires work { length work.old ≡ 2 ^ head.levels * 2 ^ head.levels }
    ensures step { (replied result, basin_of head levels.now beds.now leaves.new) ≡ perform (a_step pace.time (R.meaning rule.now) (length work.old)) (basin_of head levels.now beds.now leaves.old) }
    ensures late { work_after (replied result) work.old ≡ replicate (length work.old) dry }
{
    if too_fast(head, levels, leaves, pace.time) {
        return Err(Refusal::StepTooLong);
    }
    work.copy_from_slice(leaves);
    let survey = Survey {
        head,
        levels,
        beds,
        leaves,
    };
    let moved = walk(&Motion { survey, rule, pace }, work);
    if overfull(head, levels, work) {
        return Err(Refusal::LeafFull);
    }
    spread(head, levels, work, leaves);
    Ok(moved)
}

// Tables come one by one: the types say which of them the call may write, and the caller keeps them in memory of his own.
/// Moves the water of a basin by a rule for `time` milliseconds, and answers how much it moved in all. The work table's content is free on
/// entry; once the time is found in its range, all of its records are dry at the end, granted or refused.
pub fn step<R: FlowRule>(
    head: Head,
    levels: &[u8],
    beds: &[u16],
    leaves: &mut [Leaf],
    work: &mut [Leaf],
    time: u32,
    rule: &R,
) -> Result<u64, Refusal>
    ensures step { (replied result, basin_of head levels.now beds.now leaves.new) ≡ perform (a_step time (R.meaning rule.now) (length work.old)) (basin_of head levels.now beds.now leaves.old) }
    ensures work { work.new ≡ work_after (replied result) work.old }
{
    if work.len() != head.squares() {
        return Err(Refusal::TableLength);
    }
    validate(head, levels, beds, leaves)?;
    if time < 1 || time > 2000 {
        return Err(Refusal::OutOfRange);
    }
    let pace = Pace {
        time,
        width: head.width,
    };
    let moved = advance(head, levels, beds, leaves, work, pace, rule);
    work.fill(Leaf::DRY);
    moved
}

#[cfg(test)]
mod tests {
    use super::*;
    use flow::central::Central;
    use std::test::Fail;

    const SQUARE: Head = Head {
        levels: 1,
        width: 1,
        loose: 0,
    };

    fn still(water: u32) -> Leaf {
        Leaf {
            water,
            east: 0,
            north: 0,
        }
    }

    // Four unit leaves, of which the south-western one holds a metre of water.
    fn metre() -> [Leaf; 4] {
        [still(1_000), Leaf::DRY, Leaf::DRY, Leaf::DRY]
    }

    #[test]
    fn a_metre_spreads(rt: HostRuntime) -> Result<(), Fail> {
        let levels = [1; 4];
        let beds = [0; 4];
        let mut leaves = metre();
        let mut work = [still(7); 4];
        let moved = step(SQUARE, &levels, &beds, &mut leaves, &mut work, 50, &Central)?;
        let after = [
            Leaf {
                water: 844,
                east: 122_625,
                north: 122_625,
            },
            Leaf {
                water: 78,
                east: 122_625,
                north: 0,
            },
            Leaf {
                water: 78,
                east: 0,
                north: 122_625,
            },
            Leaf::DRY,
        ];
        assert!(rt;
            moved == 156 && leaves == after && work == [Leaf::DRY; 4],
            "granted"
        );
        let mut leaves = metre();
        let longest = step(SQUARE, &levels, &beds, &mut leaves, &mut work, 79, &Central);
        assert!(rt; longest.is_ok(), "the longest step");
        let mut leaves = metre();
        work[0] = still(7);
        let longer = step(SQUARE, &levels, &beds, &mut leaves, &mut work, 80, &Central);
        assert!(rt; longer == Err(Refusal::StepTooLong), "a longer one");
        assert!(rt;
            leaves == metre() && work == [Leaf::DRY; 4],
            "records as found, work dry"
        );
        Ok(())
    }

    #[test]
    fn steps_are_refused(rt: HostRuntime) {
        let levels = [1; 4];
        let brims = [still(30_000), still(30_000), still(30_000), Leaf::DRY];
        let mut leaves = brims;
        let found = [still(7); 4];
        let mut work = found;
        let high = [0, 10_000, 10_000, 40_000];
        let short = step(
            SQUARE,
            &levels,
            &high,
            &mut leaves,
            &mut work[0..3],
            0,
            &Central,
        );
        assert!(rt;
            short == Err(Refusal::TableLength),
            "length before validity"
        );
        let steep = step(SQUARE, &levels, &high, &mut leaves, &mut work, 0, &Central);
        assert!(rt; steep == Err(Refusal::NotABasin), "validity before time");
        let beds = [0, 10_000, 10_000, 30_000];
        let none = step(SQUARE, &levels, &beds, &mut leaves, &mut work, 0, &Central);
        assert!(rt; none == Err(Refusal::OutOfRange), "no time");
        let long = step(
            SQUARE,
            &levels,
            &beds,
            &mut leaves,
            &mut work,
            2_001,
            &Central,
        );
        assert!(rt; long == Err(Refusal::OutOfRange), "range before speed");
        assert!(rt; leaves == brims && work == found, "all as found");
        let full = step(SQUARE, &levels, &beds, &mut leaves, &mut work, 10, &Central);
        assert!(rt; full == Err(Refusal::LeafFull), "a leaf would be full");
        assert!(rt;
            leaves == brims && work == [Leaf::DRY; 4],
            "records as found, work dry"
        );
    }
}
