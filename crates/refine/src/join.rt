// The block that four siblings make, and the leaf in their place.
ghost use Rattle.std.specs.Prelude.{◌≡◌, ◌+◌, ◌*◌, ◌/◌, ◌≤◌, length};
ghost use Rattle.basin.specs.Plots.{ground};
ghost use Rattle.refine.specs.Joins.{levels_joined, leaves_joined};

use basin::finish::finish;
use basin::leaf::Leaf;
use basin::plot::Plot;
use looks::surface::surface_of;

// The tables' lengths hang on tables and plot, and neither alone can carry them; `1 ≤ plot.side` is asked for as a `Plot` may be empty.
/// Puts one leaf of `level` with the summed record in the place of the leaves on a plot, and answers its surface number.
pub fn join(
    levels: &mut [u8],
    beds: &[u16],
    leaves: &mut [Leaf],
    plot: Plot,
    level: u8,
    sum: Leaf,
) -> u64
    requires some { 1 ≤ plot.side }
    requires levels { length levels.old ≡ plot.n * plot.n }
    requires beds { length beds.now ≡ plot.n * plot.n }
    requires leaves { length leaves.old ≡ plot.n * plot.n }
    ensures levels { levels.new ≡ levels_joined plot level levels.old }
    ensures leaves { leaves.new ≡ leaves_joined plot sum leaves.old }
    ensures surface { result ≡ (sum.water + ground plot beds.now) / (plot.side * plot.side) }
{
    let Leaf { water, east, north } = sum;
    plot.fill(levels, level);
    plot.fill(leaves, finish(plot.area(), water, east, north));
    surface_of(beds, plot, water)
}
