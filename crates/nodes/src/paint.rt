// A leaf's entry on the squares of its block.
pub use basin::fill::fill_block;
