// A step of the water on a basin.
#![tactic(auto)]

pub mod ends;
pub mod fast;
pub mod step;
