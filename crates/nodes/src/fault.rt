// Why a tree cannot be read.
ghost use Rattle.std.specs.Prelude.{◌≡◌};
ghost use Rattle.nodes.specs.declared.fault.TreeFault.TheVariants.{Number};
ghost use Rattle.nodes.specs.Reports.{tree_report};

use basin::refusal::Refusal;
use numbers::fault::NumberFault;
use numbers::report::{Layer, Report};

/// A tree that cannot be read. A number's fault is carried whole; else there is the byte where the offending number begins, and at a tree that
/// is not balanced the file's length.
#[derive(Clone, Copy, PartialEq, Debug)]
pub enum TreeFault {
    Number(NumberFault),
    /// A mark, or a number of a leaf's record, is out of its range.
    Range(usize),
    /// Two squares that touch are more than one level apart.
    Unbalanced(usize),
}

impl TreeFault {
    /// The refusal, byte and layer of this fault.
    // `From` under a name, which programs call with no type to write.
    pub fn report(self) -> Report
        ensures { result ≡ tree_report self }
    {
        Report::from(self)
    }
}

impl From<TreeFault> for Report {
    ghost from_gives = { λ f r. r ≡ tree_report f };

    fn from(fault: TreeFault) -> Report {
        match fault {
            TreeFault::Number(fault) => Report::from(fault),
            TreeFault::Range(byte) => Report::new(Refusal::FileRange, byte, Layer::Tree),
            TreeFault::Unbalanced(byte) => Report::new(Refusal::NotABasin, byte, Layer::Tree),
        }
    }
}

impl From<NumberFault> for TreeFault {
    ghost from_gives = { λ f r. r ≡ Number f };

    fn from(fault: NumberFault) -> TreeFault {
        TreeFault::Number(fault)
    }
}
