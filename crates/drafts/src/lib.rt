// Drafts: basins that are being laid out.
#![tactic(auto)]

pub mod calls;
pub mod draft;
