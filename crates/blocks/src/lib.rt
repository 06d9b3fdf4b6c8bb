// Blocks of a basin on its tables: where they lie, and what lies beside a leaf.
#![tactic(auto)]

pub mod around;
pub mod block;
pub mod places;
