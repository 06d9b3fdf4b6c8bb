// A square of a basin.
ghost use Rattle.std.specs.Prelude.{◌<◌, ◌≤◌};

// It knows how many squares there are, not of which basin: what reads a survey at a square asks that the two fit (`On`).
/// A square of a basin of `n` by `n` squares: the `x`-th eastward and the `y`-th northward, counted from 0. No other square exists: that it lies
/// in the basin is part of the type.
#[derive(Clone, Copy)]
pub struct Square {
    pub x: usize,
    pub y: usize,
    pub n: usize,
    ghost inside: { (n ≤ 64) × (x < n) × (y < n) },
}
