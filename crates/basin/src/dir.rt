// The four directions of the grid.

/// A direction in which a block borders on others.
#[derive(Clone, Copy, PartialEq, Eq, Debug)]
pub enum Dir {
    East,
    North,
    West,
    South,
}
