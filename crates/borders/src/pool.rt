// A leaf's water as its faces see it.
use basin::leaf::Leaf;

// `Kept`, which holds on a valid basin, is no ghost field: definitions in specs/ build pools too, and would have to carry proofs.
/// The numbers of a leaf that its faces go by.
#[derive(Clone, Copy)]
pub struct Pool {
    pub leaf: Leaf,
    /// The surface number.
    pub surface: u64,
    /// The bed number.
    pub bed: u64,
    /// The squares along a side of the leaf.
    pub side: u32,
    /// The speeds of its water, 0 where it is dry.
    pub eastward: i64,
    pub northward: i64,
}
