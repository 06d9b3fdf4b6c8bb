// Why a file cannot be read.
ghost use Rattle.std.specs.Prelude.{◌≡◌};
ghost use Rattle.nodes.specs.declared.fault.TreeFault.TheVariants.{Number};
ghost use Rattle.codec.specs.declared.fault.FileFault.TheVariants.{Tree};
ghost use Rattle.codec.specs.Reports.{file_report};

use basin::refusal::Refusal;
use nodes::fault::TreeFault;
use numbers::fault::NumberFault;
use numbers::report::{Layer, Report};

/// A file that cannot be read. A tree's fault is carried whole, and in it a number's; else there is the byte that the fault is about.
#[derive(Clone, Copy, PartialEq, Debug)]
pub enum FileFault {
    Tree(TreeFault),
    /// A number of the head, or a bed, is out of its range.
    Range(usize),
    /// Bytes follow the last bed.
    Trailing(usize),
    /// A table has not as many entries as the basin has squares.
    TableLength(usize),
}

impl FileFault {
    /// The refusal, byte and layer of this fault.
    // `From` under a name, which programs call with no type to write.
    pub fn report(self) -> Report
        ensures { result ≡ file_report self }
    {
        Report::from(self)
    }
}

impl From<FileFault> for Report {
    ghost from_gives = { λ f r. r ≡ file_report f };

    fn from(fault: FileFault) -> Report {
        match fault {
            FileFault::Tree(fault) => Report::from(fault),
            FileFault::Range(byte) => Report::new(Refusal::FileRange, byte, Layer::File),
            FileFault::Trailing(byte) => Report::new(Refusal::TrailingBytes, byte, Layer::File),
            FileFault::TableLength(byte) => Report::new(Refusal::TableLength, byte, Layer::File),
        }
    }
}

impl From<TreeFault> for FileFault {
    ghost from_gives = { λ f r. r ≡ Tree f };

    fn from(fault: TreeFault) -> FileFault {
        FileFault::Tree(fault)
    }
}

impl From<NumberFault> for FileFault {
    ghost from_gives = { λ f r. r ≡ Tree (Number f) };

    fn from(fault: NumberFault) -> FileFault {
        FileFault::Tree(TreeFault::from(fault))
    }
}
