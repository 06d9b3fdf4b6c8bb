// The data types of a basin, and the subject as definitions that every contract above cites.
#![tactic(auto)]

pub mod dir;
pub mod fill;
pub mod finish;
pub mod fits;
pub mod head;
pub mod leaf;
pub mod plot;
pub mod plots;
pub mod quarters;
pub mod refusal;
pub mod sides;
pub mod size;
pub mod square;
pub mod squares;
pub mod window;
