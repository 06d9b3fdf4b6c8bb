// Plots: where they lie in a table, what they hold and their quarters.
ghost use Rattle.std.specs.Prelude.{◌≡◌, ◌+◌, ◌*◌, ◌/◌, ◌≤◌, length};
ghost use Rattle.basin.specs.Fills.{square};
ghost use Rattle.basin.specs.Plots.{Spans, Quartered, window_of};

use crate::fill::fill_block;
use crate::plot::Plot;
use crate::quarters::Quarters;
use crate::window::Window;

impl Plot {
    /// The entry of the south-west square.
    pub fn corner(self) -> usize
        ensures { result ≡ self.south * self.n + self.west }
    {
        self.south * self.n + self.west
    }

    /// The number of squares.
    pub fn area(self) -> usize
        ensures value { result ≡ self.side * self.side }
        ensures most { result ≤ 4096 }
    {
        let side = self.side;
        side * side
    }

    /// The squares.
    pub fn window(self) -> Window
        ensures { result ≡ window_of self }
    {
        Window {
            west: self.west,
            east: self.west + self.side,
            south: self.south,
            north: self.south + self.side,
        }
    }

    /// Puts `value` on the plot's squares.
    pub fn fill<T: Copy>(self, table: &mut [T], value: T)
        requires { length table.old ≡ self.n * self.n }
        ensures { table.new ≡ square self.side self.n self.side (self.south * self.n + self.west) value table.old }
    {
        fill_block(table, self.corner(), self.side, self.n, value);
    }

    /// The block of half the side, so many squares east and north of the south-west one.
    fn half(self, east: usize, north: usize) -> Plot
        requires east { east ≤ self.side / 2 }
        requires north { north ≤ self.side / 2 }
        ensures { Spans self.n (self.west + east) (self.south + north) (self.side / 2) result }
    {
        Plot {
            n: self.n,
            west: self.west + east,
            south: self.south + north,
            side: self.side / 2,
        }
    }

    /// The four quarters, each of half the side.
    pub fn quarters(self) -> Quarters<Plot>
        ensures { Quartered self result }
    {
        let half = self.side / 2;
        Quarters {
            sw: self.half(0, 0),
            se: self.half(half, 0),
            nw: self.half(0, half),
            ne: self.half(half, half),
        }
    }
}
