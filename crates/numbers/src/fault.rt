// Why a number cannot be read.
ghost use Rattle.std.specs.Prelude.{◌≡◌};
ghost use Rattle.numbers.specs.Reports.{number_report};

use crate::report::{Layer, Report};
use basin::refusal::Refusal;

/// A number that cannot be read, with the byte where it begins.
#[derive(Clone, Copy, PartialEq, Eq, Debug)]
pub enum NumberFault {
    /// The bytes end before the number or inside it.
    Ended(usize),
    /// The number has more than six groups, or is not in its shortest form.
    Malformed(usize),
}

impl NumberFault {
    /// The refusal, byte and layer of this fault.
    // `From` under a name, which programs call with no type to write.
    pub fn report(self) -> Report
        ensures { result ≡ number_report self }
    {
        Report::from(self)
    }
}

impl From<NumberFault> for Report {
    ghost from_gives = { λ f r. r ≡ number_report f };

    fn from(fault: NumberFault) -> Report {
        match fault {
            NumberFault::Ended(byte) => Report::new(Refusal::FileEnded, byte, Layer::Numbers),
            NumberFault::Malformed(byte) => Report::new(Refusal::NumberForm, byte, Layer::Numbers),
        }
    }
}
