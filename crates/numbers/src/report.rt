// What is said of a refused file.
ghost use Rattle.std.specs.Prelude.{◌≡◌, [], ◌∷◌, Some};
ghost use Rattle.std.specs.Fmt.{decimal};
ghost use Rattle.std.specs.List.{join_with_byte};
ghost use Rattle.basin.specs.Refusals.{number_of};
ghost use Rattle.numbers.specs.Layers.{layer_number, report};

use basin::refusal::Refusal;
use std::fmt;

/// The layer of a file: its numbers, the tree that they make, and the file around it.
#[derive(Clone, Copy, PartialEq, Eq, Debug)]
pub enum Layer {
    Numbers = 1,
    Tree = 2,
    File = 3,
}

impl Layer {
    /// The layer's number.
    pub fn number(self) -> u8
        ensures { result ≡ layer_number self }
    {
        self as u8
    }
}

/// A layer is shown as its number.
impl fmt::Display for Layer {
    ghost output = { λ l. Some (decimal (layer_number l)) };

    fn fmt<W: fmt::Write>(&self, f: &mut fmt::Formatter<W>) -> fmt::Result {
        write!(f, "{}", self.number())
    }
}

/// A file's fault as it is reported: the refusal, the byte that it is about, and the layer that it belongs to.
#[derive(Clone, Copy, PartialEq, Debug)]
pub struct Report {
    pub refusal: Refusal,
    pub byte: usize,
    pub layer: Layer,
}

impl Report {
    pub fn new(refusal: Refusal, byte: usize, layer: Layer) -> Report
        ensures { result ≡ report refusal byte layer }
    {
        Report {
            refusal,
            byte,
            layer,
        }
    }
}

/// A report is shown as its three numbers: the refusal's, the byte and the layer's.
impl fmt::Display for Report {
    ghost output = { λ r. Some (join_with_byte 32 (decimal (number_of r.refusal) ∷ decimal r.byte ∷ decimal (layer_number r.layer) ∷ [])) };

    fn fmt<W: fmt::Write>(&self, f: &mut fmt::Formatter<W>) -> fmt::Result {
        write!(f, "{} {} {}", self.refusal, self.byte, self.layer)
    }
}
