// What leaves a leaf.
use basin::sides::Sides;

// Two numbers and no enum of wall, one and two faces: a missing face adds 0 to a sum, and `send` has the `Edge` to tell how many there are.
/// The water that leaves a leaf across the first and the second face of a side, 0 where there is none.
#[derive(Clone, Copy)]
pub struct Outflow {
    pub first: u32,
    pub second: u32,
}

/// What leaves a leaf on each side and in all, and the discharges that the step leaves it, not yet clipped.
#[derive(Clone, Copy)]
pub struct Departure {
    pub outflows: Sides<Outflow>,
    pub total: u32,
    pub new_east: i64,
    pub new_north: i64,
}
