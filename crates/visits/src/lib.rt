// One leaf's visit in a step: what leaves it goes to the entries of the leaves that get it.
#![tactic(auto)]

pub mod departure;
pub mod motion;
pub mod part;
pub mod send;
pub mod visit;
