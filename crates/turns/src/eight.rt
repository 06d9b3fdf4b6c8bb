// The eight turns, by their names.
ghost use Rattle.std.specs.Prelude.{◌≡◌};
ghost use Rattle.turns.specs.Eight.{number_of, picked};
ghost use Rattle.turns.specs.Turns.{undoing};

use basin::refusal::Refusal;

/// A turn of a basin: R0 to R3 are so many quarter turns, F0 to F3 a flip and then so many. Its number is its place among them.
#[derive(Clone, Copy, PartialEq, Eq, Debug)]
pub enum Turn {
    R0,
    R1,
    R2,
    R3,
    F0,
    F1,
    F2,
    F3,
}

// the library's callers name turns by numbers: a narrower parameter would ask more of them
impl TryFrom<u32> for Turn {
    ghost use Rattle.std.specs.Prelude.{◌≡◌, ◌<◌, MatchResult};
    ghost use Rattle.basin.specs.declared.refusal.Refusal.TheVariants.{OutOfRange};
    ghost use Rattle.turns.specs.Eight.{number_of};

    type Error = Refusal;

    ghost try_from_gives = { λ n r. MatchResult r (λ t. number_of t ≡ n) (λ e. (e ≡ OutOfRange) × (7 < n)) };

    fn try_from(number: u32) -> Result<Turn, Refusal> {
        match number {
            0 => Ok(Turn::R0),
            1 => Ok(Turn::R1),
            2 => Ok(Turn::R2),
            3 => Ok(Turn::R3),
            4 => Ok(Turn::F0),
            5 => Ok(Turn::F1),
            6 => Ok(Turn::F2),
            7 => Ok(Turn::F3),
            _ => Err(Refusal::OutOfRange),
        }
    }
}

impl Turn {
    /// The turn that undoes this one.
    pub(crate) fn undone(self) -> Turn
        ensures { number_of result ≡ undoing (number_of self) }
    {
        // A match says each turn's case at once: only R1 and R3 are not undone by themselves.
        match self {
            Turn::R1 => Turn::R3,
            Turn::R3 => Turn::R1,
            turn => turn,
        }
    }

    /// Of what is so in the four directions before the turn, what is so eastward and northward after it.
    pub(crate) fn pick<T: Copy>(self, east: T, north: T, west: T, south: T) -> (T, T)
        ensures { result ≡ picked self east north west south }
    {
        // A match says each turn's case at once, and a reader can check it line by line.
        match self {
            Turn::R0 => (east, north),
            Turn::R1 => (south, east),
            Turn::R2 => (west, south),
            Turn::R3 => (north, west),
            Turn::F0 => (west, north),
            Turn::F1 => (south, west),
            Turn::F2 => (east, south),
            Turn::F3 => (north, east),
        }
    }
}
