// The tree of a basin file, read into the tables that it describes.
#![tactic(auto)]

pub mod fault;
pub mod mark;
pub mod node;
pub mod paint;
pub mod record;
pub mod spot;
pub mod target;
