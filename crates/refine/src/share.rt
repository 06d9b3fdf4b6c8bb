// Sharing the water of a leaf out among its children.
ghost use Rattle.std.specs.Prelude.{◌≡◌, ◌*◌, ◌≤◌, length, pos, int_div};
ghost use Rattle.basin.specs.Finish.{finish as finished};
ghost use Rattle.refine.specs.Shares.{shares as shares_of, some_bare, some_full};

use basin::finish::finish;
use basin::leaf::{Leaf, may_hold};
use basin::plot::Plot;
use basin::quarters::Quarters;
use looks::surface::plot_beds;

// The table's length is asked for: it hangs on beds and plot, and neither alone can carry it.
/// The water of each child: what its quarter of water and beds has above its own beds.
pub fn shares(plot: Plot, beds: &[u16], quarter: u64) -> Quarters<u64>
    requires { length beds.now ≡ plot.n * plot.n }
    ensures { result ≡ shares_of plot beds.now quarter }
{
    plot.quarters()
        .map(|child| quarter.saturating_sub(plot_beds(beds, child)))
}

/// Whether some child would be dry.
pub fn leaves_bare(shares: Quarters<u64>) -> bool
    ensures { result ≡ some_bare shares }
{
    shares.any(|water| water < 1)
}

// The area stays a number with its bound asked for: it is one number, handed on to `may_hold`.
/// Whether some child, of `area` squares, may not hold its water.
pub fn overfills(shares: Quarters<u64>, area: usize) -> bool
    requires { area ≤ 4096 }
    ensures { result ≡ some_full area shares }
{
    shares.any(|water| !may_hold(area, water))
}

/// The record of a child of `area` squares: its water, and a quarter of the leaf's discharges, clipped to it.
pub fn child(area: usize, water: u32, leaf: Leaf) -> Leaf
    ensures { result ≡ finished area water (int_div leaf.east (pos 4)) (int_div leaf.north (pos 4)) }
{
    finish(area, water, leaf.east / 4, leaf.north / 4)
}
