// Places and neighbours of squares.
ghost use Rattle.std.specs.Prelude.{◌≡◌, ◌+◌, ◌*◌, ◌/◌, ◌<◌};
ghost use Rattle.basin.specs.Places.{EastOf, NorthOf, WestOf, SouthOf, NextOf};
ghost use Rattle.basin.specs.Plots.{Covered, Spans};

use crate::dir::Dir;
use crate::plot::Plot;
use crate::sides::Sides;
use crate::size::place;
use crate::square::Square;

impl Square {
    /// The square's entry in a table.
    pub fn entry(self) -> usize
        ensures value { result ≡ self.y * self.n + self.x }
        ensures within { result < self.n * self.n }
    {
        place(self.n, self.x, self.y)
    }

    /// The block of side `side` that the square lies in, where blocks of that side cover the basin.
    pub fn plot(self, side: usize) -> Plot
        requires { Covered side self.n }
        ensures { Spans self.n (self.x / side * side) (self.y / side * side) side result }
    {
        Plot {
            n: self.n,
            west: self.x / side * side,
            south: self.y / side * side,
            side,
        }
    }

    /// The next square in a direction, if the basin has one there.
    pub fn next(self, dir: Dir) -> Option<Square>
        ensures { NextOf dir self.x self.y self.n result }
    {
        let Square { x, y, n } = self;
        // A match says each direction's case at once, and `?` ends the two that could go below 0.
        let (x, y) = match dir {
            Dir::East => (x + 1, y),
            Dir::North => (x, y + 1),
            Dir::West => (x.checked_sub(1)?, y),
            Dir::South => (x, y.checked_sub(1)?),
        };
        if x < n && y < n {
            Some(Square { x, y, n })
        } else {
            None
        }
    }

    /// The squares across each edge, where there are such.
    pub fn beside(self) -> Sides<Option<Square>>
        ensures east { EastOf self.x self.y self.n result.east }
        ensures north { NorthOf self.x self.y self.n result.north }
        ensures west { WestOf self.x self.y self.n result.west }
        ensures south { SouthOf self.x self.y self.n result.south }
    {
        Sides {
            east: self.next(Dir::East),
            north: self.next(Dir::North),
            west: self.next(Dir::West),
            south: self.next(Dir::South),
        }
    }
}
