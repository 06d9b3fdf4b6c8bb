// Pouring, drawing and settling.
ghost use Rattle.std.specs.Prelude.{◌≡◌};
ghost use Rattle.basin.specs.Basins.{basin_of};
ghost use Rattle.calls.specs.Replies.{replied};
ghost use Rattle.runs.specs.Calls.{outside, perform, pour as a_pour, draw as a_draw, settle as a_settle};

use crate::spot::{locate, refill_by_table};
use basin::head::Head;
use basin::leaf::{Leaf, may_hold};
use basin::refusal::Refusal;

/// Whether an amount is out of its range; no leaf may hold more than the largest.
fn out_of_range(amount: u32) -> bool
    ensures { result ≡ outside 1 122880000 amount }
{
    amount < 1 || amount > 122_880_000
}

// Tables come one by one: the types say which of them the call may write, and the caller keeps them in memory of his own.
/// Adds an amount of water to the leaf at a square, and answers the leaf's new surface number.
pub fn pour(
    head: Head,
    levels: &[u8],
    beds: &[u16],
    leaves: &mut [Leaf],
    x: usize,
    y: usize,
    amount: u32,
) -> Result<u64, Refusal>
    ensures { (replied result, basin_of head levels.now beds.now leaves.new) ≡ perform (a_pour x y amount) (basin_of head levels.now beds.now leaves.old) }
{
    let spot = locate(head, levels, beds, leaves, x, y)?;
    if out_of_range(amount) {
        return Err(Refusal::OutOfRange);
    }
    let water = spot.leaf.water as u64 + amount as u64;
    if !may_hold(spot.plot.area(), water) {
        return Err(Refusal::LeafFull);
    }
    Ok(refill_by_table(spot, beds, leaves, water as u32))
}

// Tables come one by one: the types say which of them the call may write, and the caller keeps them in memory of his own.
/// Takes an amount of water from the leaf at a square, clips its discharges, and answers the leaf's new surface number.
pub fn draw(
    head: Head,
    levels: &[u8],
    beds: &[u16],
    leaves: &mut [Leaf],
    x: usize,
    y: usize,
    amount: u32,
) -> Result<u64, Refusal>
    ensures { (replied result, basin_of head levels.now beds.now leaves.new) ≡ perform (a_draw x y amount) (basin_of head levels.now beds.now leaves.old) }
{
    let spot = locate(head, levels, beds, leaves, x, y)?;
    if out_of_range(amount) {
        return Err(Refusal::OutOfRange);
    }
    let water = spot.leaf.water;
    if amount > water {
        return Err(Refusal::Overdrawn);
    }
    Ok(refill_by_table(spot, beds, leaves, water - amount))
}

// Tables come one by one: the types say which of them the call may write, and the caller keeps them in memory of his own.
/// Moves all of the loose account into the leaf at a square, and answers how much that was.
pub fn settle(
    head: &mut Head,
    levels: &[u8],
    beds: &[u16],
    leaves: &mut [Leaf],
    x: usize,
    y: usize,
) -> Result<u32, Refusal>
    ensures { (replied result, basin_of head.new levels.now beds.now leaves.new) ≡ perform (a_settle x y) (basin_of head.old levels.now beds.now leaves.old) }
{
    let spot = locate(*head, levels, beds, leaves, x, y)?;
    let loose = head.loose;
    let water = spot.leaf.water as u64 + loose as u64;
    if !may_hold(spot.plot.area(), water) {
        return Err(Refusal::LeafFull);
    }
    let _ = refill_by_table(spot, beds, leaves, water as u32);
    head.loose = 0;
    Ok(loose)
}
