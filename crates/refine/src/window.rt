// The levels of a window's squares.
ghost use Rattle.std.specs.Prelude.{◌≡◌, ◌*◌, ◌≤◌, length, Decides};
ghost use Rattle.refine.specs.Windows.{Between};

use basin::window::Window;

// The table's length is asked for, and no survey: one would ask a valid basin of callers that need none.
/// Whether the levels of all squares of a window are from `low` to `high`, in a basin of `n` by `n` squares.
pub fn all_between(levels: &[u8], n: usize, window: Window, low: u8, high: u8) -> bool
    requires full { length levels.now ≡ n * n }
    requires east { window.east ≤ n }
    requires north { window.north ≤ n }
    ensures { Decides result (Between n levels.now window low high) }
{
    window.passes(|x, y| {
        let level = levels[y * n + x];
        low <= level && level <= high
    })
}
