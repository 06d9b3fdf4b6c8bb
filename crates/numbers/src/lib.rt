// The numbers of a basin file, and how a refused file is reported.
#![tactic(auto)]

pub mod fault;
pub mod number;
pub mod reader;
pub mod report;
