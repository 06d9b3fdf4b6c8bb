// From the work table to the records.
ghost use Rattle.std.specs.Prelude.{◌≡◌, ℕ, ◌+◌, ◌*◌, ◌^◌, ◌<◌, length, slice_index_or};
ghost use Rattle.basin.specs.Records.{dry};
ghost use Rattle.basin.specs.Squares.{some_square};
ghost use Rattle.blocks.specs.Places.{home_at};
ghost use Rattle.visits.specs.Visits.{held};
ghost use Rattle.step.specs.Ends.{Shaped, overfull_in, finished_in};

use basin::finish::finish;
use basin::head::Head;
use basin::leaf::{Leaf, may_hold};
use basin::size::side;
use blocks::around::home;
use blocks::places::corner;

// Levels and work table one by one, with their lengths asked for: a survey would ask a valid basin of callers that need none.
/// The work table's entry of the leaf that the square of entry `i` lies in.
fn entry_of(head: Head, levels: &[u8], work: &[Leaf], i: usize) -> Leaf
    requires shaped { Shaped head.levels levels.now work.now }
    requires within { i < 2 ^ head.levels * 2 ^ head.levels }
    ensures { result ≡ held head.levels work.now (home_at head.levels levels.now i) }
{
    work[corner(head, home(head, levels, i))]
}

// Levels and work table as in `entry_of`.
/// Whether some leaf's entry holds more than the leaf may.
pub fn overfull(head: Head, levels: &[u8], work: &[Leaf]) -> bool
    requires { Shaped head.levels levels.now work.now }
    ensures { result ≡ some_square (2 ^ head.levels) (λ x y. overfull_in head.levels levels.now work.now (y * 2 ^ head.levels + x)) }
{
    for (i, level) in levels.iter().enumerate() {
        let s = side(head.levels - *level);
        if !may_hold(s * s, entry_of(head, levels, work, i).water as u64) {
            return true;
        }
    }
    false
}

// Levels and work table as in `entry_of`.
/// Gives each square the record that its leaf's entry comes to.
pub fn spread(head: Head, levels: &[u8], work: &[Leaf], leaves: &mut [Leaf])
    requires shaped { Shaped head.levels levels.now work.now }
    requires leaves { length leaves.old ≡ 2 ^ head.levels * 2 ^ head.levels }
    ensures { (i : ℕ) → i < 2 ^ head.levels * 2 ^ head.levels → slice_index_or leaves.new i dry ≡ finished_in head.levels levels.now work.now i }
{
    for (i, level) in levels.iter().enumerate() {
        let s = side(head.levels - *level);
        let Leaf { water, east, north } = entry_of(head, levels, work, i);
        leaves[i] = finish(s * s, water, east, north);
    }
}
