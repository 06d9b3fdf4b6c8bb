// The answer of a look.
ghost use Rattle.std.specs.Prelude.{[], ◌∷◌, Some};
ghost use Rattle.std.specs.Fmt.{decimal, signed_decimal};
ghost use Rattle.std.specs.List.{join_with_byte};

use std::fmt;

/// What a look shows of the leaf at a square: its level, its water V, its surface number W, and its discharges X eastward and Y northward.
#[derive(Clone, Copy, PartialEq, Eq, Debug)]
pub struct Look {
    pub level: u8,
    pub water: u32,
    pub surface: u64,
    pub east: i64,
    pub north: i64,
}

/// A look is shown as its five numbers.
impl fmt::Display for Look {
    ghost output = { λ l. Some (join_with_byte 32 (decimal l.level ∷ decimal l.water ∷ decimal l.surface ∷ signed_decimal l.east ∷ signed_decimal l.north ∷ [])) };

    fn fmt<W: fmt::Write>(&self, f: &mut fmt::Formatter<W>) -> fmt::Result {
        write!(
            f,
            "{} {} {} {} {}",
            self.level, self.water, self.surface, self.east, self.north
        )
    }
}
