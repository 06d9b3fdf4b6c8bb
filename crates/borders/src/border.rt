// What a side of a leaf does to it.

// How large the numbers are stands in the contracts: a ghost field would put a proof into `border_of`, the definition that builds a border.
/// What one side of a leaf does to it in a step.
#[derive(Clone, Copy)]
pub struct Border {
    // 0 is what a face that is not there adds to a sum: no case is needed where wishes are summed.
    /// The water that wishes to leave across the first face, 0 at a wall.
    pub first: u64,
    /// And across the second, 0 where there is none.
    pub second: u64,
    /// The momentum change across the side, of all its faces.
    pub across: i64,
    /// The momentum change along it.
    pub along: i64,
}
