// What a split makes of a leaf, and what a merge makes one of.
use basin::leaf::Leaf;
use basin::quarters::Quarters;

/// A leaf divided: the records of its four children, and the water that is left over.
#[derive(Clone, Copy)]
pub struct Division {
    pub children: Quarters<Leaf>,
    pub remainder: u32,
}

/// The records of a leaf and of its three siblings: beside it to the east or west, to the north or south, and across the corner.
#[derive(Clone, Copy)]
pub struct Siblings {
    pub own: Leaf,
    pub beside: Leaf,
    pub above: Leaf,
    pub across: Leaf,
}
