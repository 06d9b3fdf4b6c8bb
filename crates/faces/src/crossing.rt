// What one face does in one step.

/// The numbers of one face in one step.
#[derive(Clone, Copy, PartialEq, Eq, Debug)]
pub struct Crossing {
    /// The water that wishes to pass from side 1 to side 2; a negative number the other way.
    pub wish: i64,
    /// What side 1's discharge across the face falls by.
    pub fall: i64,
    /// What side 2's discharge across the face rises by.
    pub rise: i64,
    /// What the discharge along the face falls by on side 1, and rises by on side 2.
    pub drift: i64,
}
