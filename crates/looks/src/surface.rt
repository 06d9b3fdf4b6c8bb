// Bed sums and surface numbers.
ghost use Rattle.std.specs.Prelude.{◌≡◌, ◌+◌, ◌*◌, ◌/◌, ◌≤◌, length, sum};
ghost use Rattle.basin.specs.Basins.{view};
ghost use Rattle.basin.specs.Plots.{ground};
ghost use Rattle.basin.specs.Squares.{surface};
ghost use Rattle.basin.specs.Sums.{grid};
ghost use Rattle.basin.specs.Tables.{entry};
ghost use Rattle.tables.specs.Surveys.{surveyed, On};

use basin::plot::Plot;
use basin::square::Square;
use tables::survey::Survey;

/// The sum of the beds of a row.
fn row_beds(row: &[u16]) -> u64
    requires { length row.now ≤ 64 }
    ensures value { result ≡ sum row.now }
    ensures most { result ≤ 65535 * length row.now }
{
    row.iter().map(|bed| *bed as u64).sum()
}

// A plot's numbers one by one: this is public and answers for a block of any table, also where no `Plot` exists (n over 64).
/// The sum of the beds of a block of `count` by `count` squares, of which (x, y) is the south-west one, in a basin of `n` by `n`.
pub fn block_beds(beds: &[u16], n: usize, x: usize, y: usize, count: usize) -> u64
    requires few { count ≤ 64 }
    requires full { length beds.now ≡ n * n }
    requires east { x + count ≤ n }
    requires north { y + count ≤ n }
    ensures value { result ≡ grid count (λ i j. entry n 0 beds.now (x + i) (y + j)) }
    ensures most { result ≤ 65535 * 4096 }
{
    let mut sum = 0;
    // A `map` over the rows would have to bound each row's start inside its closure; the loop does so once.
    for j in 0..count {
        let start = (y + j) * n + x;
        sum += row_beds(&beds[start..start + count]);
    }
    sum
}

// The table's length is asked for: it hangs on beds and plot, and neither alone can carry it.
/// The sum of the beds of a plot.
pub fn plot_beds(beds: &[u16], plot: Plot) -> u64
    requires { length beds.now ≡ plot.n * plot.n }
    ensures value { result ≡ ground plot beds.now }
    ensures most { result ≤ 65535 * 4096 }
{
    block_beds(beds, plot.n, plot.west, plot.south, plot.side)
}

// `1 ≤ plot.side` is asked for: a `Plot` may be empty, and this divides by its area.
/// The surface number of a leaf on a plot that holds `water`: water and beds together, shared out over the leaf's area.
pub fn surface_of(beds: &[u16], plot: Plot, water: u32) -> u64
    requires full { length beds.now ≡ plot.n * plot.n }
    requires some { 1 ≤ plot.side }
    ensures { result ≡ (water + ground plot beds.now) / (plot.side * plot.side) }
{
    (water as u64 + plot_beds(beds, plot)) / plot.area() as u64
}

// `On` is asked for: it hangs on survey and square, and neither alone can carry it.
/// The surface number W at a square of a valid basin.
pub fn surface_at(survey: &Survey<'_>, square: Square) -> u64
    requires { On (surveyed survey.now) square }
    ensures { result ≡ surface (view (surveyed survey.now)) square.x square.y }
{
    let plot = survey.block(survey.level(square), square);
    surface_of(survey.beds, plot, survey.leaf(square).water)
}
