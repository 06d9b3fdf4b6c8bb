// Calls that change the water of one leaf: pour, draw and settle.
#![tactic(auto)]

pub mod spot;
pub mod water;
