// One call of a list.
ghost use Rattle.std.specs.Prelude.{◌≡◌, length};
ghost use Rattle.basin.specs.Basins.{basin_of};
ghost use Rattle.calls.specs.Replies.{replied};
ghost use Rattle.runs.specs.Calls.{perform as performed};
ghost use Rattle.lists.specs.Lists.{call_of, work_after_call};

use crate::call::Call;
use basin::head::Head;
use basin::leaf::Leaf;
use basin::refusal::Refusal;
use calls::water::{draw, pour, settle};
use flow::rule::FlowRule;
use refine::merge::merge;
use refine::split::split;
use step::step::step;

// Tables come one by one: the types say which of them the call may write, and the caller keeps them in memory of his own.
/// Performs a call of a list.
pub fn perform<R: FlowRule + Copy>(
    head: &mut Head,
    levels: &mut [u8],
    beds: &[u16],
    leaves: &mut [Leaf],
    work: &mut [Leaf],
    call: Call<R>,
) -> Result<u64, Refusal>
    ensures done { (replied result, basin_of head.new levels.new beds.now leaves.new) ≡ performed (call_of R.meaning (length work.old) call) (basin_of head.old levels.old beds.now leaves.old) }
    ensures work { work.new ≡ work_after_call call (replied result) work.old }
{
    // a match and not closures: a call is data, which the caller keeps beside its reply
    match call {
        Call::Pour { x, y, amount } => pour(*head, levels, beds, leaves, x, y, amount),
        Call::Draw { x, y, amount } => draw(*head, levels, beds, leaves, x, y, amount),
        Call::Settle { x, y } => settle(head, levels, beds, leaves, x, y).map(u64::from),
        Call::Step {
            time,
            rule,
            entries,
        } => {
            let count = entries.min(work.len());
            step(*head, levels, beds, leaves, &mut work[..count], time, &rule)
        }
        Call::Split { x, y } => split(head, levels, beds, leaves, x, y).map(u64::from),
        Call::Merge { x, y } => merge(*head, levels, beds, leaves, x, y),
    }
}
