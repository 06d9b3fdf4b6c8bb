// One leaf's visit.
ghost use Rattle.std.specs.Prelude.{◌≡◌, ◌*◌, ◌^◌, ◌≤◌, length};
ghost use Rattle.basin.specs.Basins.{view};
ghost use Rattle.blocks.specs.Places.{as_block, Lies, LeafAt};
ghost use Rattle.runs.specs.Homes.{tree};
ghost use Rattle.runs.specs.Step.{out_of};
ghost use Rattle.tables.specs.Surveys.{surveyed};
ghost use Rattle.visits.specs.Visits.{held, taken, Room, AllVisited};

use crate::departure::Departure;
use crate::motion::Motion;
use crate::part::departure_of;
use crate::send::send;
use basin::head::Head;
use basin::leaf::Leaf;
use basin::sides::Sides;
use blocks::around::sides;
use blocks::block::Block;
use blocks::places::corner;
use flow::rule::FlowRule;

// `Lies` and the work table's length are asked for here and below: they hang on a basin's levels and on address or table.
/// Takes from a leaf's entry what leaves the leaf, and puts its new discharges there.
fn take(head: Head, work: &mut [Leaf], block: Block, departure: Departure)
    requires lies { Lies head.levels block }
    requires full { length work.old ≡ 2 ^ head.levels * 2 ^ head.levels }
    requires enough { departure.total ≤ (held head.levels work.old (as_block block)).water }
    ensures { work.new ≡ taken head.levels work.old (as_block block) departure.total departure.new_east departure.new_north }
{
    let i = corner(head, block);
    work[i] = Leaf {
        water: work[i].water - departure.total,
        east: departure.new_east,
        north: departure.new_north,
    };
}

/// Moves what leaves the leaf at an address from its entry of the work table to those of its neighbours, and answers how much that is.
/// Everything is read from the old records.
pub fn visit<R: FlowRule>(motion: &Motion<'_, R>, work: &mut [Leaf], block: Block) -> u32
    requires lies { Lies motion.now.survey.head.levels block }
    requires leaf { LeafAt motion.now.survey.head.levels motion.now.survey.levels.now (as_block block) }
    requires full { length work.old ≡ 2 ^ motion.now.survey.head.levels * 2 ^ motion.now.survey.head.levels }
    requires room { Room motion.now.survey.head.levels motion.now.survey.levels.now work.old 1400000000 }
    requires enough { out_of (R.meaning motion.now.rule.now) motion.now.pace.time (tree (view (surveyed motion.now.survey))) (as_block block) ≤ (held motion.now.survey.head.levels work.old (as_block block)).water }
    ensures moved { result ≡ out_of (R.meaning motion.now.rule.now) motion.now.pace.time (tree (view (surveyed motion.now.survey))) (as_block block) }
    ensures visited { AllVisited motion.now.survey.head.levels motion.now.survey.levels.now (R.meaning motion.now.rule.now) motion.now.pace.time (tree (view (surveyed motion.now.survey))) (as_block block) work.old work.new }
{
    let head = motion.survey.head;
    let around = sides(head, motion.survey.levels, block);
    let departure = departure_of(motion, block, around);
    let Sides {
        east,
        north,
        west,
        south,
    } = departure.outflows;
    take(head, work, block, departure);
    send(head, work, around.east, east);
    send(head, work, around.north, north);
    send(head, work, around.west, west);
    send(head, work, around.south, south);
    departure.total
}
