// Whether head and tables are a valid basin.
ghost use Rattle.std.specs.Prelude.{◌≡◌, ◌+◌, ◌*◌, ◌^◌, ◌<◌, ◌≤◌, not, length, Decides, MatchResult};
ghost use Rattle.basin.specs.Basins.{basin_of, heading, tables, Full, ValidBasin};
ghost use Rattle.basin.specs.Flaws.{bad_square, no_basin, validity};
ghost use Rattle.tables.specs.Alike.{Alike, FitsBlock, SquareValid};

use crate::balance::is_balanced;
use basin::head::Head;
use basin::leaf::{Leaf, may_hold, may_run};
use basin::refusal::Refusal;
use basin::size::{place, side};
use basin::window::Window;

/// Whether a square's own numbers are in their ranges, in a basin of `levels` levels.
fn in_range(levels: u8, level: u8, bed: u16, leaf: Leaf) -> bool
    requires { levels ≤ 6 }
    ensures { result ≡ not (bad_square levels level bed leaf) }
{
    if level > levels || bed > 30_000 {
        return false;
    }
    let s = side(levels - level);
    may_hold(s * s, leaf.water as u64)
        && may_run(leaf.water, leaf.east)
        && may_run(leaf.water, leaf.north)
}

/// Whether two squares have the same level and the same record.
fn alike(levels: &[u8], leaves: &[Leaf], i: usize, j: usize) -> bool
    requires from_levels { i < length levels.now }
    requires to_levels { j < length levels.now }
    requires from_leaves { i < length leaves.now }
    requires to_leaves { j < length leaves.now }
    ensures { Decides result (Alike levels.now leaves.now i j) }
{
    levels[i] == levels[j] && leaves[i] == leaves[j]
}

// (x, y) and n one by one, and no `Square`: `passes` hands out numbers and `alike` takes entries, so that a square would be taken apart at once.
/// Whether a square has the level and the record of its block's south-west corner, and of its neighbours east and north in the block.
fn fits_block(levels: &[u8], leaves: &[Leaf], n: usize, s: usize, x: usize, y: usize) -> bool
    requires full_levels { length levels.now ≡ n * n }
    requires full_leaves { length leaves.now ≡ n * n }
    requires few { n ≤ 64 }
    requires some { 0 < s }
    requires across { x < n }
    requires up { y < n }
    ensures { Decides result (FitsBlock n s levels.now leaves.now x y) }
{
    let here = place(n, x, y);
    if !alike(levels, leaves, here, place(n, x / s * s, y / s * s)) {
        return false;
    }
    if x + 1 < n && x / s == (x + 1) / s && !alike(levels, leaves, here, place(n, x + 1, y)) {
        return false;
    }
    if y + 1 < n && y / s == (y + 1) / s && !alike(levels, leaves, here, place(n, x, y + 1)) {
        return false;
    }
    true
}

// Tables come one by one: they are no survey before this has looked at them.
/// Whether a square's own numbers are in their ranges, and it fits the block of its level.
fn square_valid(
    head: Head,
    levels: &[u8],
    beds: &[u16],
    leaves: &[Leaf],
    x: usize,
    y: usize,
) -> bool
    requires full { Full (heading head) (tables levels.now beds.now leaves.now) }
    requires across { x < 2 ^ head.levels }
    requires up { y < 2 ^ head.levels }
    ensures { Decides result (SquareValid (basin_of head levels.now beds.now leaves.now) x y) }
{
    let n = head.side();
    let here = place(n, x, y);
    let level = levels[here];
    if !in_range(head.levels, level, beds[here], leaves[here]) {
        return false;
    }
    fits_block(levels, leaves, n, side(head.levels - level), x, y)
}

// Tables come one by one: they are no survey before this has looked at them.
/// Whether head and tables, of the right lengths, are a valid basin.
fn is_valid(head: Head, levels: &[u8], beds: &[u16], leaves: &[Leaf]) -> bool
    requires { Full (heading head) (tables levels.now beds.now leaves.now) }
    ensures { result ≡ not (no_basin (basin_of head levels.now beds.now leaves.now)) }
{
    let n = head.side();
    let valid = Window::whole(n).passes(|x, y| square_valid(head, levels, beds, leaves, x, y));
    valid && is_balanced(levels, n)
}

// Tables come one by one: they are no survey before this has looked at them.
/// Whether head and tables are a valid basin, and which of the first two refusals says that they are not.
pub fn validate(head: Head, levels: &[u8], beds: &[u16], leaves: &[Leaf]) -> Result<(), Refusal>
    ensures verdict { result ≡ validity (basin_of head levels.now beds.now leaves.now) }
    ensures valid { MatchResult result (λ _. ValidBasin (basin_of head levels.now beds.now leaves.now)) (λ _. (ValidBasin (basin_of head levels.now beds.now leaves.now) → ⊥)) }
{
    if !head.fits(levels, beds, leaves) {
        return Err(Refusal::TableLength);
    }
    if is_valid(head, levels, beds, leaves) {
        Ok(())
    } else {
        Err(Refusal::NotABasin)
    }
}

#[cfg(test)]
mod tests {
    use super::*;

    #[test]
    fn basins_are_told_from_others(rt: HostRuntime) {
        let one = Head {
            levels: 0,
            width: 1,
            loose: 0,
        };
        let full = Leaf {
            water: 30_000,
            east: 300_000_000,
            north: -300_000_000,
        };
        assert!(rt;
            is_valid(one, &[0], &[30_000], &[full]),
            "one square, all at its limits"
        );
        assert!(rt;
            !is_valid(one, &[1], &[0], &[Leaf::DRY]),
            "a level too high"
        );
        assert!(rt;
            !is_valid(one, &[0], &[30_001], &[Leaf::DRY]),
            "a bed too high"
        );
        let deep = Leaf {
            water: 30_001,
            east: 0,
            north: 0,
        };
        assert!(rt; !is_valid(one, &[0], &[0], &[deep]), "too much water");
        let southward = Leaf {
            water: 1,
            east: 0,
            north: -10_001,
        };
        assert!(rt;
            !is_valid(one, &[0], &[0], &[southward]),
            "too large a discharge"
        );

        let two = Head {
            levels: 1,
            width: 1,
            loose: 0,
        };
        assert!(rt;
            is_valid(two, &[0; 4], &[0; 4], &[deep; 4]),
            "one leaf of four squares"
        );
        assert!(rt;
            !is_valid(two, &[0; 4], &[0; 4], &[deep, deep, deep, full]),
            "a square with another record"
        );

        let four = Head {
            levels: 2,
            width: 1,
            loose: 0,
        };
        let cut = [1, 1, 2, 2, 1, 1, 2, 2, 1, 1, 1, 1, 1, 1, 1, 1];
        assert!(rt;
            is_valid(four, &cut, &[0; 16], &[Leaf::DRY; 16]),
            "a quarter cut in four"
        );
        let torn = [1, 1, 1, 1, 1, 1, 1, 2, 1, 1, 1, 1, 1, 1, 1, 1];
        assert!(rt;
            !is_valid(four, &torn, &[0; 16], &[Leaf::DRY; 16]),
            "a fine square in a coarse block"
        );
    }
}
