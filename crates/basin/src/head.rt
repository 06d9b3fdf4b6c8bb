// A basin's head.
ghost use Rattle.std.specs.Prelude.{◌≡◌, ◌*◌, ◌^◌, ◌<◌, ◌≤◌, MatchOption};
ghost use Rattle.basin.specs.Places.{IsAt};

use crate::size::side;
use crate::square::Square;

/// The head of a basin: the levels L of its tree, the width d of a square in metres, and the loose account, which holds water that lies in
/// no leaf. No other head exists: the ranges are part of the type.
#[derive(Clone, Copy, PartialEq, Eq, Debug)]
pub struct Head {
    pub levels: u8,
    pub width: u16,
    pub loose: u32,
    ghost in_range: { (levels ≤ 6) × (1 ≤ width) × (width ≤ 1000) × (loose ≤ 1000000) },
}

impl Head {
    /// The squares along a side of the basin.
    pub fn side(&self) -> usize
        ensures value { result ≡ 2 ^ self.now.levels }
        ensures least { 1 ≤ result }
        ensures most { result ≤ 64 }
    {
        side(self.levels)
    }

    /// The squares of the basin: the entries that each of its tables has.
    pub fn squares(&self) -> usize
        ensures value { result ≡ 2 ^ self.now.levels * 2 ^ self.now.levels }
        ensures most { result ≤ 4096 }
    {
        let n = self.side();
        n * n
    }

    /// The square (x, y), if the basin has it.
    pub fn square(&self, x: usize, y: usize) -> Option<Square>
        ensures { MatchOption result (x < 2 ^ self.now.levels → y < 2 ^ self.now.levels → ⊥) (IsAt x y (2 ^ self.now.levels)) }
    {
        let n = self.side();
        if x < n && y < n {
            Some(Square { x, y, n })
        } else {
            None
        }
    }
}
