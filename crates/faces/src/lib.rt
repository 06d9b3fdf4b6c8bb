// Faces: what a rule's answer comes to for the two sides of one face, in one step.
#![tactic(auto)]

pub mod crossing;
pub mod numbers;
pub mod pace;
