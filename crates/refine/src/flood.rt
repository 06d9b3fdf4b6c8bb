// Whether dry ground would lie below the water beside it.
ghost use Rattle.std.specs.Prelude.{◌≡◌, ◌≤◌, Decides, MatchOption, nat_lt};
ghost use Rattle.basin.specs.Basins.{heading, side, view};
ghost use Rattle.basin.specs.Squares.{bed_number as bed_number_of, surface};
ghost use Rattle.tables.specs.Surveys.{surveyed, On};
ghost use Rattle.refine.specs.Floods.{flows_onto as flows_onto_of, KeepsOff, DrySquare, DryWindow};

use basin::square::Square;
use basin::window::Window;
use looks::surface::{plot_beds, surface_at};
use tables::survey::Survey;

// `On` and the level's bound are asked for in this file: each hangs on the survey and a square or level, and neither alone can carry it.
/// The bed number that a leaf of `level` has at a square of a valid basin.
fn bed_number(survey: &Survey<'_>, level: u8, square: Square) -> u64
    requires on { On (surveyed survey.now) square }
    requires deep { level ≤ survey.now.head.levels }
    ensures { result ≡ bed_number_of (view (surveyed survey.now)) level square.x square.y }
{
    let plot = survey.block(level, square);
    plot_beds(survey.beds, plot) / plot.area() as u64
}

/// Whether the surface at the square `from` is above the bed number of a leaf of `level` at another. Apart, and not inlined, so that the test of
/// each square's neighbours, most of which are dry, is short.
#[inline(never)]
fn stands_above(survey: &Survey<'_>, level: u8, square: Square, from: Square) -> bool
    requires on { On (surveyed survey.now) square }
    requires from { On (surveyed survey.now) from }
    requires deep { level ≤ survey.now.head.levels }
    ensures { result ≡ nat_lt (bed_number_of (view (surveyed survey.now)) level square.x square.y) (surface (view (surveyed survey.now)) from.x from.y) }
{
    bed_number(survey, level, square) < surface_at(survey, from)
}

/// Whether the square `from` is wet and its surface above the bed number of a leaf of `level` at another.
fn flows_onto(survey: &Survey<'_>, level: u8, square: Square, from: Square) -> bool
    requires on { On (surveyed survey.now) square }
    requires from { On (surveyed survey.now) from }
    requires deep { level ≤ survey.now.head.levels }
    ensures { result ≡ flows_onto_of (view (surveyed survey.now)) level square.x square.y from.x from.y }
{
    survey.leaf(from).water > 0 && stands_above(survey, level, square, from)
}

/// Whether the square `from`, if there is one, would not flow onto a leaf of `level` at another.
fn keeps_off(survey: &Survey<'_>, level: u8, square: Square, from: Option<Square>) -> bool
    requires on { On (surveyed survey.now) square }
    requires from { MatchOption from (Unit {0}) (λ q. On (surveyed survey.now) q) }
    requires deep { level ≤ survey.now.head.levels }
    ensures { Decides result (KeepsOff (view (surveyed survey.now)) level square.x square.y from) }
{
    match from {
        Some(from) => !flows_onto(survey, level, square, from),
        None => true,
    }
}

/// Whether no square across an edge would flow onto a leaf of `level` at a square.
fn stays_dry_at(survey: &Survey<'_>, level: u8, square: Square) -> bool
    requires on { On (surveyed survey.now) square }
    requires deep { level ≤ survey.now.head.levels }
    ensures { Decides result (DrySquare (view (surveyed survey.now)) level square.x square.y) }
{
    square
        .beside()
        .all(|from| keeps_off(survey, level, square, from))
}

/// Whether no square across an edge would flow onto leaves of `level` in a window.
pub fn stays_dry(survey: &Survey<'_>, level: u8, window: Window) -> bool
    requires deep { level ≤ survey.now.head.levels }
    requires east { window.east ≤ side (heading survey.now.head) }
    requires north { window.north ≤ side (heading survey.now.head) }
    ensures { Decides result (DryWindow (view (surveyed survey.now)) level window) }
{
    window.passes(|x, y| match survey.head.square(x, y) {
        Some(square) => stays_dry_at(survey, level, square),
        None => true,
    })
}
