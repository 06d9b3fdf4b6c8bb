// Where nodes lie in the tables.
ghost use Rattle.std.specs.Prelude.{◌≡◌, ◌+◌, ◌-◌, ◌*◌, ◌^◌, ◌<◌, ◌≤◌, MatchOption};

use basin::head::Head;
use basin::quarters::Quarters;
use basin::size::{place, side};

/// Where a node lies: a block of a basin's squares. No other spot exists: the block lies in the basin.
#[derive(Clone, Copy)]
pub struct Spot {
    /// The block's south-west square.
    pub x: usize,
    pub y: usize,
    /// The levels below the node: 2^height squares lie along the block's side.
    pub height: u8,
    /// The levels of the basin.
    pub levels: u8,
    ghost few: { levels ≤ 6 },
    ghost deep: { height ≤ levels },
    ghost east: { x + 2 ^ height ≤ 2 ^ levels },
    ghost north: { y + 2 ^ height ≤ 2 ^ levels },
}

impl Spot {
    ghost use Rattle.nodes.specs.Spots.{corner_of, Quarter, Quartered, WholeSpot};

    /// The node of a whole basin.
    pub fn whole(head: Head) -> Spot
        ensures { WholeSpot head.levels result }
    {
        Spot {
            x: 0,
            y: 0,
            height: head.levels,
            levels: head.levels,
        }
    }

    /// The squares along the block's side.
    pub fn side(self) -> usize
        ensures value { result ≡ 2 ^ self.height }
        ensures most { result ≤ 64 }
    {
        side(self.height)
    }

    /// The entry of the block's south-west square.
    pub fn corner(self) -> usize
        ensures value { result ≡ corner_of self }
        ensures within { result < 2 ^ self.levels * 2 ^ self.levels }
    {
        place(side(self.levels), self.x, self.y)
    }

    /// Where the quarter lies whose south-west square is so many squares east and north of the block's.
    fn quarter(self, east: usize, north: usize) -> Spot
        requires high { 0 < self.height }
        requires east { east + 2 ^ (self.height - 1) ≤ 2 ^ self.height }
        requires north { north + 2 ^ (self.height - 1) ≤ 2 ^ self.height }
        ensures { Quarter self east north result }
    {
        Spot {
            x: self.x + east,
            y: self.y + north,
            height: self.height - 1,
            levels: self.levels,
        }
    }

    /// Where its quarters lie, if it has levels below it.
    pub fn quarters(self) -> Option<Quarters<Spot>>
        ensures { MatchOption result (self.height ≡ 0) (λ q. Quartered self q) }
    {
        let half = side(self.height.checked_sub(1)?);
        Some(Quarters {
            sw: self.quarter(0, 0),
            se: self.quarter(half, 0),
            nw: self.quarter(0, half),
            ne: self.quarter(half, half),
        })
    }
}
