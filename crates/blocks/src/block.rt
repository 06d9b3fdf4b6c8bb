// Addresses of blocks, and what a leaf borders on.

// Where an address lies (`Lies`) hangs on the basin's levels too; a type that says it would carry the head along in every address.
/// The address of a block: the one of its level that is the `x`-th eastward and the `y`-th northward, counted from 0.
#[derive(Clone, Copy)]
pub struct Block {
    pub level: u8,
    pub x: usize,
    pub y: usize,
}

/// What a leaf borders on in one direction: the basin's wall, one leaf or two.
#[derive(Clone, Copy)]
pub enum Edge {
    Wall,
    One(Block),
    Two(Block, Block),
}
