// What a face does to one of its two leaves.

// Bounds on these numbers (`SmallShare`) stand in the contracts of `between` and `at_wall`: only `border`, which adds shares up, needs them.
/// What a face does in a step to the leaf that it is seen from.
#[derive(Clone, Copy)]
pub struct Share {
    /// The water that wishes to leave across it.
    pub wish: u64,
    /// The momentum change across the face.
    pub across: i64,
    /// The momentum change along it.
    pub along: i64,
}
