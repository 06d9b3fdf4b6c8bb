// Why a call is refused.
ghost use Rattle.std.specs.Prelude.{◌≡◌, Some};
ghost use Rattle.std.specs.Fmt.{decimal};
ghost use Rattle.basin.specs.Refusals.{number_of};

use std::fmt;

/// The reason of a refused call, with its number.
#[derive(Clone, Copy, PartialEq, Eq, Debug)]
pub enum Refusal {
    /// A table has not as many entries as the basin has squares.
    TableLength = 1,
    /// Head and tables are no valid basin.
    NotABasin = 2,
    /// The square lies outside the basin.
    OffGrid = 3,
    /// An argument is out of its range.
    OutOfRange = 4,
    /// The leaf cannot be split, or has not three siblings to merge with.
    NotDivisible = 5,
    /// A leaf beside would differ by more than one level.
    Unbalanced = 6,
    /// Wet and dry would mix, or dry ground would lie below the water beside it.
    WetDry = 7,
    /// More is drawn than the leaf holds.
    Overdrawn = 8,
    /// The step is too long for the fastest leaf.
    StepTooLong = 9,
    /// A leaf would hold more than it may.
    LeafFull = 10,
    /// The loose account would pass its limit.
    LooseFull = 11,
    /// The file ends before a number or inside one.
    FileEnded = 12,
    /// A number of the file is too long, or not in its shortest form.
    NumberForm = 13,
    /// A number of the file is out of its range.
    FileRange = 14,
    /// The file goes on after the last bed.
    TrailingBytes = 15,
    /// The output is shorter than the file to write.
    OutputShort = 16,
}

impl Refusal {
    // A method beside the derives: `refusal.number()` says at the call what `u8::from(refusal)` leaves to be looked up.
    /// The refusal's number.
    pub fn number(self) -> u8
        ensures { result ≡ number_of self }
    {
        self as u8
    }
}

/// A refusal is shown as its number.
impl fmt::Display for Refusal {
    ghost output = { λ r. Some (decimal (number_of r)) };

    fn fmt<W: fmt::Write>(&self, f: &mut fmt::Formatter<W>) -> fmt::Result {
        write!(f, "{}", self.number())
    }
}
