// What can be read off a valid basin.
#![tactic(auto)]

pub mod look;
pub mod square;
pub mod surface;
pub mod total;
