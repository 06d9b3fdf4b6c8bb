// Flow rules: what passes across a face between two sides of water.
#![tactic(auto)]

pub mod central;
pub mod choice;
pub mod flux;
pub mod laws;
pub mod pond;
pub mod root;
pub mod rule;
pub mod rules;
pub mod side;
pub mod sides;
pub mod worked;
