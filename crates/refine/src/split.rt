// Splitting a leaf.
ghost use Rattle.std.specs.Prelude.{◌≡◌};
ghost use Rattle.basin.specs.Basins.{basin_of};
ghost use Rattle.calls.specs.Replies.{replied};
ghost use Rattle.runs.specs.Calls.{perform, split as a_split};

use crate::divide::{cut, divide};
use crate::flood::stays_dry;
use crate::window::all_between;
use basin::head::Head;
use basin::leaf::Leaf;
use basin::refusal::Refusal;
use calls::spot::Spot;
use tables::survey::Survey;

// Tables come one by one: the types say which of them the call may write, and the caller keeps them in memory of his own.
/// Cuts the leaf at a square into four, and answers the water that is left over, which joins the loose account.
pub fn split(
    head: &mut Head,
    levels: &mut [u8],
    beds: &[u16],
    leaves: &mut [Leaf],
    x: usize,
    y: usize,
) -> Result<u32, Refusal>
    ensures { (replied result, basin_of head.new levels.new beds.now leaves.new) ≡ perform (a_split x y) (basin_of head.old levels.old beds.now leaves.old) }
{
    let survey = Survey::new(*head, levels, beds, leaves)?;
    let spot = Spot::at(&survey, x, y)?;
    if spot.level >= head.levels {
        return Err(Refusal::NotDivisible);
    }
    let block = spot.plot.window();
    let n = spot.plot.n;
    if !all_between(levels, n, block.ring(n), spot.level, head.levels) {
        return Err(Refusal::Unbalanced);
    }
    if spot.leaf.water == 0 && !stays_dry(&survey, spot.level + 1, block) {
        return Err(Refusal::WetDry);
    }
    let division = divide(spot.plot, beds, spot.leaf, head.loose)?;
    cut(levels, leaves, spot, division.children);
    head.loose += division.remainder;
    Ok(division.remainder)
}
