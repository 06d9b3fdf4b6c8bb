// What a rule answers.
ghost use Rattle.std.specs.Prelude.{[], ◌∷◌, Some};
ghost use Rattle.std.specs.Fmt.{signed_decimal};
ghost use Rattle.std.specs.List.{join_with_byte};

use std::fmt;

/// What passes across a face from side 1 to side 2: water (`flow`), momentum across the face (`push`) and momentum along it (`drift`), each for
/// a millimetre of the face and a second.
#[derive(Clone, Copy, PartialEq, Eq, Debug)]
pub struct Flux {
    pub flow: i64,
    pub push: i64,
    pub drift: i64,
}

/// A flux is shown as its three numbers.
impl fmt::Display for Flux {
    ghost output = { λ x. Some (join_with_byte 32 (signed_decimal x.flow ∷ signed_decimal x.push ∷ signed_decimal x.drift ∷ [])) };

    fn fmt<W: fmt::Write>(&self, f: &mut fmt::Formatter<W>) -> fmt::Result {
        write!(f, "{} {} {}", self.flow, self.push, self.drift)
    }
}
