// The eight turns of a basin. Turn 4 × f + r is f flips, each of which takes square (x, y) to (n - 1 - x, y), and then r quarter turns, each of
// which takes (x, y) to (n - 1 - y, x).
#![tactic(auto)]

pub mod composite;
pub mod eight;
pub mod entry;
pub mod place;
pub mod table;
pub mod turn;
