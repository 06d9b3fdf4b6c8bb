// Something for each of the four directions.
ghost use Rattle.std.specs.Prelude.{true, false, MatchBool, ◌⊎◌};
ghost use Rattle.basin.specs.declared.dir.Dir.TheVariants.{East, North, West, South};

use crate::dir::Dir;

/// A thing of one kind for each direction.
#[derive(Clone, Copy)]
pub struct Sides<T> {
    pub east: T,
    pub north: T,
    pub west: T,
    pub south: T,
}

impl<T: Copy> Sides<T> {
    /// What a function makes of each of them and its direction.
    pub fn map<U, F: Fn(T, Dir) -> U>(self, f: F) -> Sides<U>
        requires east { F.pre f self.east East }
        requires north { F.pre f self.north North }
        requires west { F.pre f self.west West }
        requires south { F.pre f self.south South }
        ensures east { F.post f self.east East result.east }
        ensures north { F.post f self.north North result.north }
        ensures west { F.post f self.west West result.west }
        ensures south { F.post f self.south South result.south }
    {
        Sides {
            east: f(self.east, Dir::East),
            north: f(self.north, Dir::North),
            west: f(self.west, Dir::West),
            south: f(self.south, Dir::South),
        }
    }

    /// Whether all of them pass a test.
    pub fn all<F: Fn(T) -> bool>(self, test: F) -> bool
        requires east { F.pre test self.east }
        requires north { F.pre test self.north }
        requires west { F.pre test self.west }
        requires south { F.pre test self.south }
        ensures { MatchBool result (F.post test self.east true × (F.post test self.north true × (F.post test self.west true × F.post test self.south true))) (F.post test self.east false ⊎ (F.post test self.north false ⊎ (F.post test self.west false ⊎ F.post test self.south false))) }
    {
        test(self.east) && test(self.north) && test(self.west) && test(self.south)
    }
}
