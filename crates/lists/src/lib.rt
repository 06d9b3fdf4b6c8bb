// Lists of calls on a basin.
#![tactic(auto)]

pub mod call;
pub mod one;
pub mod replay;
