// Turning a table.
ghost use Rattle.std.specs.Prelude.{◌≡◌, ℕ, ◌*◌, ◌<◌, ◌≤◌, length, slice_index_or};
ghost use Rattle.turns.specs.Eight.{number_of};
ghost use Rattle.turns.specs.Laws.{TableStays, TableTurnsCompose};
ghost use Rattle.turns.specs.Turns.{TurnedTable};

use crate::eight::Turn;
use crate::entry::Turns;
use crate::place::moved;
use basin::square::Square;

// Both lengths are asked for: they hang on n and the tables, of which one is written.
/// Writes the table `from`, turned, to the table `to`; both have `n` by `n` entries.
pub fn turn_table<T: Turns>(n: usize, from: &[T], to: &mut [T], turn: Turn)
    requires least { 1 ≤ n }
    requires most { n ≤ 64 }
    requires from { length from.now ≡ n * n }
    requires to { length to.old ≡ n * n }
    requires can { (i : ℕ) (d : T) → i < length from.now → T.Turns.can (slice_index_or from.now i d) }
    ensures turned { TurnedTable T.Turns.act n (number_of turn) from.now to.new }
    ensures none { TableStays T.Turns.act }
    ensures twice { TableTurnsCompose T.Turns.act }
{
    let back = turn.undone();
    for (i, entry) in to.iter_mut().enumerate() {
        let (x, y) = (i % n, i / n);
        let source = moved(Square { x, y, n }, back);
        *entry = from[source.entry()].turned(turn);
    }
}
