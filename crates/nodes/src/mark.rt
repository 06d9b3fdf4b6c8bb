// The marks of a tree's nodes.
ghost use Rattle.nodes.specs.Marks.{Decodes};

/// The number that a node of the file begins with.
#[derive(Clone, Copy, PartialEq, Eq, Debug)]
pub enum Mark {
    /// Before a leaf's record.
    Leaf = 0,
    /// Before the four quarters of a node that is cut.
    Cut = 1,
}

/// A number that is no mark.
#[derive(Clone, Copy, PartialEq, Eq, Debug)]
pub struct NoMark(pub u64);

impl TryFrom<u64> for Mark {
    type Error = NoMark;

    ghost try_from_gives = { Decodes };

    fn try_from(number: u64) -> Result<Mark, NoMark> {
        match number {
            0 => Ok(Mark::Leaf),
            1 => Ok(Mark::Cut),
            _ => Err(NoMark(number)),
        }
    }
}
