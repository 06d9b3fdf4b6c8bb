// A block of squares as the part of a table that it is.
ghost use Rattle.std.specs.Prelude.{◌+◌, ◌≤◌};

// It holds no table: what sums or fills one on a plot asks for its length.
/// A block of `side` by `side` squares, of which (`west`, `south`) is the south-west one, in a basin of `n` by `n`. No other plot exists: that
/// the block lies in the basin is part of the type.
#[derive(Clone, Copy)]
pub struct Plot {
    pub n: usize,
    pub west: usize,
    pub south: usize,
    pub side: usize,
    ghost inside: { (n ≤ 64) × (west + side ≤ n) × (south + side ≤ n) },
}
