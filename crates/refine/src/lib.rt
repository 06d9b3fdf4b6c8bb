// Refining and coarsening the tree: split and merge.
#![tactic(auto)]

pub mod divide;
pub mod flood;
pub mod join;
pub mod merge;
pub mod parts;
pub mod share;
pub mod siblings;
pub mod split;
pub mod window;
