// Tests of a basin's tables.
#![tactic(auto)]

pub mod balance;
pub mod survey;
pub mod surveys;
pub mod validity;
