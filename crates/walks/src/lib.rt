// All leaves' visits in a step, in the order of the tables.
#![tactic(auto)]

pub mod walk;
