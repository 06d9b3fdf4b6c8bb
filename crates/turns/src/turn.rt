// Turning a basin.
ghost use Rattle.std.specs.Prelude.{◌≡◌, IfOk};
ghost use Rattle.basin.specs.Basins.{tables, basin_of, ValidBasin};
ghost use Rattle.basin.specs.Totals.{total};
ghost use Rattle.turns.specs.Turns.{answered, turn_of};

use crate::eight::Turn;
use crate::table::turn_table;
use basin::head::Head;
use basin::leaf::Leaf;
use basin::refusal::Refusal;
use tables::survey::Survey;

// A number and no `Turn`: any is answered, and a narrower type would ask more of callers.
/// Writes a basin, turned, to a second set of tables, and answers its head.
// each table is a slice of its own, as the caller keeps them
pub fn turn(
    head: Head,
    levels: &[u8],
    beds: &[u16],
    leaves: &[Leaf],
    second_levels: &mut [u8],
    second_beds: &mut [u16],
    second_leaves: &mut [Leaf],
    turn: u32,
) -> Result<Head, Refusal>
    ensures turned { (answered result, tables second_levels.new second_beds.new second_leaves.new) ≡ turn_of (basin_of head levels.now beds.now leaves.now) (tables second_levels.old second_beds.old second_leaves.old) turn }
    ensures valid { IfOk result (λ h. ValidBasin (basin_of h second_levels.new second_beds.new second_leaves.new)) }
    ensures total { IfOk result (λ h. total (basin_of h second_levels.new second_beds.new second_leaves.new) ≡ total (basin_of head levels.now beds.now leaves.now)) }
{
    if !head.fits(second_levels, second_beds, second_leaves) {
        return Err(Refusal::TableLength);
    }
    let survey = Survey::new(head, levels, beds, leaves)?;
    let turn = Turn::try_from(turn)?;
    let n = head.side();
    turn_table(n, survey.levels, second_levels, turn);
    turn_table(n, survey.beds, second_beds, turn);
    turn_table(n, survey.leaves, second_leaves, turn);
    Ok(head)
}

#[cfg(test)]
mod tests {
    use super::*;
    use crate::composite::composite;
    use crate::place::turned_place;

    const HEAD: Head = Head {
        levels: 1,
        width: 5,
        loose: 3,
    };

    const BEDS: [u16; 4] = [1, 2, 3, 4];

    // One leaf of four squares, with these discharges.
    fn leaves(east: i64, north: i64) -> [Leaf; 4] {
        [Leaf {
            water: 7,
            east,
            north,
        }; 4]
    }

    // A number, as `turn` takes it.
    // Whether a turn takes the beds 1 to 4 and the discharges 10 eastward and 20 northward to these.
    fn turns_to(number: u32, beds: [u16; 4], east: i64, north: i64) -> bool {
        let mut second_levels = [9; 4];
        let mut second_beds = [9; 4];
        let mut second_leaves = [Leaf::DRY; 4];
        let head = turn(
            HEAD,
            &[0; 4],
            &BEDS,
            &leaves(10, 20),
            &mut second_levels,
            &mut second_beds,
            &mut second_leaves,
            number,
        );
        head == Ok(HEAD)
            && second_levels == [0; 4]
            && second_beds == beds
            && second_leaves == leaves(east, north)
    }

    #[test]
    fn eight_turns(rt: HostRuntime) {
        assert!(rt; turns_to(0, BEDS, 10, 20), "no turn");
        assert!(rt; turns_to(1, [3, 1, 4, 2], -20, 10), "a quarter");
        assert!(rt; turns_to(2, [4, 3, 2, 1], -10, -20), "a half");
        assert!(rt; turns_to(3, [2, 4, 1, 3], 20, -10), "three quarters");
        assert!(rt; turns_to(4, [2, 1, 4, 3], -10, 20), "a flip");
        assert!(rt; turns_to(5, [4, 2, 3, 1], -20, -10), "a flip and a quarter");
        assert!(rt; turns_to(6, [3, 4, 1, 2], 10, -20), "a flip and a half");
        assert!(rt;
            turns_to(7, [1, 3, 2, 4], 20, 10),
            "a flip and three quarters"
        );
        assert!(rt; composite(1, 4) == Ok(7), "a quarter, then a flip");
        assert!(rt; composite(4, 1) == Ok(5), "a flip, then a quarter");
        assert!(rt;
            composite(8, 0) == Err(Refusal::OutOfRange),
            "no ninth turn before"
        );
        assert!(rt;
            composite(0, 8) == Err(Refusal::OutOfRange),
            "no ninth turn after"
        );
        assert!(rt; turned_place(HEAD, 0, 0, 1) == Ok((1, 0)), "a place inside");
        assert!(rt;
            turned_place(HEAD, 2, 0, 1) == Ok((2, 0)),
            "a place outside"
        );
        assert!(rt;
            turned_place(HEAD, 0, 0, 8) == Err(Refusal::OutOfRange),
            "no ninth turn"
        );
    }

    #[test]
    fn a_refusal_changes_nothing(rt: HostRuntime) {
        let full = leaves(0, 0);
        let torn = [full[0], full[0], full[0], Leaf::DRY];
        let mut levels = [9; 4];
        let mut beds = [9; 4];
        let mut second = leaves(1, 1);
        let first_short = turn(
            HEAD,
            &[0; 3],
            &BEDS,
            &torn,
            &mut levels,
            &mut beds,
            &mut second,
            8,
        );
        assert!(rt;
            first_short == Err(Refusal::TableLength),
            "a short table of the first set"
        );
        let second_short = turn(
            HEAD,
            &[0; 4],
            &BEDS,
            &torn,
            &mut levels,
            &mut [],
            &mut second,
            8,
        );
        assert!(rt;
            second_short == Err(Refusal::TableLength),
            "a short table of the second set"
        );
        let no_basin = turn(
            HEAD,
            &[0; 4],
            &BEDS,
            &torn,
            &mut levels,
            &mut beds,
            &mut second,
            8,
        );
        assert!(rt; no_basin == Err(Refusal::NotABasin), "no valid basin");
        let ninth = turn(
            HEAD,
            &[0; 4],
            &BEDS,
            &full,
            &mut levels,
            &mut beds,
            &mut second,
            8,
        );
        assert!(rt; ninth == Err(Refusal::OutOfRange), "no ninth turn");
        assert!(rt;
            levels == [9; 4] && beds == [9; 4] && second == leaves(1, 1),
            "as they were"
        );
    }
}
