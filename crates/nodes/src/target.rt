// Where a node is read to.
ghost use Rattle.std.specs.Prelude.{◌≡◌, ◌+◌, ◌-◌, ◌*◌, ◌^◌, ◌<◌, ◌≤◌, length, MatchOption};

use crate::paint::fill_block;
use basin::head::Head;
use basin::quarters::Quarters;
use basin::size::side;

// Not one type with `Spot`: a reader's tables have rows of any length, and no square (x, y) is known in them.
/// Where a node is read to: a block of a table whose rows have `stride` entries. No other target exists: the block fits a table that memory can hold.
#[derive(Clone, Copy)]
pub struct Target {
    /// The entry of the block's south-west square.
    pub corner: usize,
    /// The entries of a row.
    pub stride: usize,
    /// The levels below the node: 2^height squares lie along the block's side.
    pub height: u8,
    /// The levels of the basin.
    pub levels: u8,
    ghost few: { levels ≤ 6 },
    ghost deep: { height ≤ levels },
    ghost room: { corner + 2 ^ height * stride + 2 ^ height ≤ 2 ^ 63 + stride },
}

impl Target {
    ghost use Rattle.nodes.specs.Targets.{LiesIn, TargetQuarter, TargetQuarters, WholeTarget};
    ghost use Rattle.basin.specs.Fills.{square};

    /// The node of a whole basin.
    pub fn whole(head: Head) -> Target
        ensures { WholeTarget head.levels result }
    {
        Target {
            corner: 0,
            stride: head.side(),
            height: head.levels,
            levels: head.levels,
        }
    }

    /// The squares along the block's side.
    pub fn side(self) -> usize
        ensures value { result ≡ 2 ^ self.height }
        ensures most { result ≤ 64 }
    {
        side(self.height)
    }

    // `LiesIn` is asked for, as in `read_node`.
    /// Puts a value on the block's squares.
    pub fn fill<T: Copy>(self, table: &mut [T], value: T)
        requires { LiesIn self (length table.old) }
        ensures { table.new ≡ square (2 ^ self.height) self.stride (2 ^ self.height) self.corner value table.old }
    {
        fill_block(table, self.corner, self.side(), self.stride, value);
    }

    /// Where the quarter lies whose south-west square is so many squares east and north of the block's.
    fn quarter(self, east: usize, north: usize) -> Target
        requires high { 0 < self.height }
        requires east { east + 2 ^ (self.height - 1) ≤ 2 ^ self.height }
        requires north { north + 2 ^ (self.height - 1) ≤ 2 ^ self.height }
        ensures { TargetQuarter self east north result }
    {
        Target {
            corner: self.corner + north * self.stride + east,
            stride: self.stride,
            height: self.height - 1,
            levels: self.levels,
        }
    }

    /// Where its quarters lie, if it has levels below it.
    pub fn quarters(self) -> Option<Quarters<Target>>
        ensures { MatchOption result (self.height ≡ 0) (λ q. TargetQuarters self q) }
    {
        let half = side(self.height.checked_sub(1)?);
        Some(Quarters {
            sw: self.quarter(0, 0),
            se: self.quarter(half, 0),
            nw: self.quarter(0, half),
            ne: self.quarter(half, half),
        })
    }
}
