// The file of a basin.
#![tactic(auto)]

pub mod beds;
pub mod fault;
pub mod file;
pub mod heading;
