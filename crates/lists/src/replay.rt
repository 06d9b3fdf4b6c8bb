// A list of calls, performed in order.
ghost use Rattle.basin.specs.Basins.{basin_of, ValidBasin};
ghost use Rattle.runs.specs.Runs.{RunsWell, AllRunsWell};
ghost use Rattle.lists.specs.Lists.{calls_of, Performed};
ghost use Rattle.std.specs.Prelude.{length};

use crate::call::Entry;
use crate::one::perform;
use basin::head::Head;
use basin::leaf::Leaf;
use flow::rule::FlowRule;

// Tables come one by one: the types say which of them the call may write, and the caller keeps them in memory of his own.
/// Performs the calls of a list in order, each on the basin that the one before left, and writes each reply beside its call. A step is lent the
/// first entries of the work table.
///
/// Whatever the list, on a valid basin: every call leaves a valid basin; water is neither made nor lost, but for what is poured and drawn; in no
/// step does a leaf give more than it holds; from the moment that water stands it stays, through steps, splits and merges; and the turned list on
/// the turned basin replies alike and leaves the turned basins.
pub fn replay<R: FlowRule + Copy>(
    head: &mut Head,
    levels: &mut [u8],
    beds: &[u16],
    leaves: &mut [Leaf],
    work: &mut [Leaf],
    entries: &mut [Entry<R>],
)
    ensures run { Performed R.meaning entries.old entries.new work.old work.new (basin_of head.old levels.old beds.now leaves.old) (basin_of head.new levels.new beds.now leaves.new) }
    ensures lawful { ValidBasin (basin_of head.old levels.old beds.now leaves.old) → RunsWell (basin_of head.old levels.old beds.now leaves.old) (calls_of R.meaning (length work.old) entries.old) }
    ensures always { AllRunsWell }
{
    for entry in entries.iter_mut() {
        entry.reply = perform(head, levels, beds, leaves, work, entry.call);
    }
}
