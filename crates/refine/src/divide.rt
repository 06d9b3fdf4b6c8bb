// Dividing a leaf.
ghost use Rattle.std.specs.Prelude.{◌≡◌, ◌+◌, ◌*◌, ◌<◌, ◌≤◌, length, IfOk};
ghost use Rattle.refine.specs.Divisions.{children_of, wet_division, division_of, levels_cut, leaves_cut};
ghost use Rattle.refine.specs.Shares.{SmallShares};

use crate::parts::Division;
use crate::share::{child, leaves_bare, overfills, shares};
use basin::leaf::Leaf;
use basin::plot::Plot;
use basin::quarters::Quarters;
use basin::refusal::Refusal;
use calls::spot::Spot;
use looks::surface::plot_beds;

/// The records of the children, of `area` squares each, that get these shares.
fn children(area: usize, shares: Quarters<u64>, leaf: Leaf) -> Quarters<Leaf>
    requires { SmallShares shares }
    ensures { result ≡ children_of area shares leaf }
{
    shares.map(|water| child(area, water as u32, leaf))
}

// The table's length hangs on beds and plot; loose water keeps its bound beside it, as a head of other loose water is made from the answer.
/// A wet leaf divided: each child gets a fourth of water and beds together, less its own beds.
fn divide_wet(plot: Plot, beds: &[u16], leaf: Leaf, loose: u32) -> Result<Division, Refusal>
    requires full { length beds.now ≡ plot.n * plot.n }
    requires little { loose ≤ 1000000 }
    ensures value { result ≡ wet_division plot beds.now leaf loose }
    ensures few { IfOk result (λ d. loose + d.remainder ≤ 1000000) }
{
    let half = plot.side / 2;
    let area = half * half;
    let fill = leaf.water as u64 + plot_beds(beds, plot);
    let quarter = fill / 4;
    let shares = shares(plot, beds, quarter);
    if leaves_bare(shares) {
        return Err(Refusal::WetDry);
    }
    if overfills(shares, area) {
        return Err(Refusal::LeafFull);
    }
    let remainder = (fill - 4 * quarter) as u32;
    if loose + remainder > 1_000_000 {
        return Err(Refusal::LooseFull);
    }
    Ok(Division {
        children: children(area, shares, leaf),
        remainder,
    })
}

// The table's length and loose water as in `divide_wet`.
/// A leaf divided: a dry one has dry children.
pub fn divide(plot: Plot, beds: &[u16], leaf: Leaf, loose: u32) -> Result<Division, Refusal>
    requires full { length beds.now ≡ plot.n * plot.n }
    requires little { loose ≤ 1000000 }
    ensures value { result ≡ division_of plot beds.now leaf loose }
    ensures few { IfOk result (λ d. loose + d.remainder ≤ 1000000) }
{
    if leaf.water > 0 {
        return divide_wet(plot, beds, leaf, loose);
    }
    Ok(Division {
        children: Quarters {
            sw: Leaf::DRY,
            se: Leaf::DRY,
            nw: Leaf::DRY,
            ne: Leaf::DRY,
        },
        remainder: 0,
    })
}

/// Puts four children in the place of the leaf at a spot.
pub fn cut(levels: &mut [u8], leaves: &mut [Leaf], spot: Spot, children: Quarters<Leaf>)
    requires levels { length levels.old ≡ spot.plot.n * spot.plot.n }
    requires leaves { length leaves.old ≡ spot.plot.n * spot.plot.n }
    requires few { spot.level < 6 }
    ensures levels { levels.new ≡ levels_cut spot.plot spot.level levels.old }
    ensures leaves { leaves.new ≡ leaves_cut spot.plot children leaves.old }
{
    spot.plot.fill(levels, spot.level + 1);
    let parts = spot.plot.quarters();
    parts.sw.fill(leaves, children.sw);
    parts.se.fill(leaves, children.se);
    parts.nw.fill(leaves, children.nw);
    parts.ne.fill(leaves, children.ne);
}
