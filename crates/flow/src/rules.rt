// The rules by name.
ghost use Rattle.std.specs.Prelude.{Some, codes};
ghost use Rattle.flow.specs.Names.{Named};

use std::error::Error;
use std::fmt;
use std::str::FromStr;

/// The rules that programs name.
#[derive(Clone, Copy, PartialEq, Eq, Debug)]
pub enum Rules {
    Central,
    Pond,
}

/// A name that no rule has.
#[derive(Clone, Copy, PartialEq, Eq, Debug)]
pub struct UnknownRule;

impl FromStr for Rules {
    type Err = UnknownRule;

    ghost from_str_gives = { Named };

    fn from_str(name: &str) -> Result<Rules, UnknownRule> {
        match name {
            "central" => Ok(Rules::Central),
            "pond" => Ok(Rules::Pond),
            _ => Err(UnknownRule),
        }
    }
}

impl fmt::Display for UnknownRule {
    ghost output = { λ _. Some (codes "the rules are central and pond") };

    fn fmt<W: fmt::Write>(&self, f: &mut fmt::Formatter<W>) -> fmt::Result {
        write!(f, "the rules are central and pond")
    }
}

impl Error for UnknownRule {}
