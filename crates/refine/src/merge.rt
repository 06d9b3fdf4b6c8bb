// Merging four leaves.
ghost use Rattle.std.specs.Prelude.{◌≡◌};
ghost use Rattle.basin.specs.Basins.{basin_of};
ghost use Rattle.calls.specs.Replies.{replied};
ghost use Rattle.runs.specs.Calls.{perform, merge as a_merge};

use crate::flood::stays_dry;
use crate::join::join;
use crate::siblings::{joined, mixed, siblings};
use crate::window::all_between;
use basin::head::Head;
use basin::leaf::Leaf;
use basin::refusal::Refusal;
use calls::spot::Spot;
use tables::survey::Survey;

// Tables come one by one: the types say which of them the call may write, and the caller keeps them in memory of his own.
/// Joins the leaf at a square with its three siblings, and answers the new leaf's surface number.
pub fn merge(
    head: Head,
    levels: &mut [u8],
    beds: &[u16],
    leaves: &mut [Leaf],
    x: usize,
    y: usize,
) -> Result<u64, Refusal>
    ensures { (replied result, basin_of head levels.new beds.now leaves.new) ≡ perform (a_merge x y) (basin_of head levels.old beds.now leaves.old) }
{
    let survey = Survey::new(head, levels, beds, leaves)?;
    let spot = Spot::at(&survey, x, y)?;
    if spot.level == 0 {
        return Err(Refusal::NotDivisible);
    }
    let above = spot.level - 1;
    let parent = survey.block(above, spot.square);
    let block = parent.window();
    if !all_between(levels, parent.n, block, spot.level, spot.level) {
        return Err(Refusal::NotDivisible);
    }
    if !all_between(levels, parent.n, block.ring(parent.n), 0, spot.level) {
        return Err(Refusal::Unbalanced);
    }
    let family = siblings(leaves, spot);
    if mixed(family) {
        return Err(Refusal::WetDry);
    }
    if family.own.water == 0 && !stays_dry(&survey, above, block) {
        return Err(Refusal::WetDry);
    }
    Ok(join(levels, beds, leaves, parent, above, joined(family)))
}
