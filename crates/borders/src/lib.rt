// What the faces of one leaf do to it in a step.
#![tactic(auto)]

pub mod around;
pub mod border;
pub mod drain;
pub mod pool;
pub mod pools;
pub mod share;
pub mod shares;
