// Writing a basin's file.
#![tactic(auto)]

pub mod beds;
pub mod file;
pub mod node;
pub mod number;
pub mod record;
pub mod tree;
pub mod writer;
