// What leaves a leaf, by the rule and the draining.
ghost use Rattle.std.specs.Prelude.{◌≡◌, ◌+◌, ◌≤◌};
ghost use Rattle.basin.specs.Basins.{view};
ghost use Rattle.blocks.specs.Places.{as_block, Lies, LeafAt, Around};
ghost use Rattle.borders.specs.Borders.{SmallBorder};
ghost use Rattle.runs.specs.Homes.{tree};
ghost use Rattle.tables.specs.Surveys.{surveyed};
ghost use Rattle.visits.specs.Departures.{outflow_by, departure_from, SmallOutflow, SmallDeparture};

use crate::departure::{Departure, Outflow};
use crate::motion::Motion;
use basin::sides::Sides;
use blocks::block::{Block, Edge};
use borders::around::borders;
use borders::border::Border;
use borders::drain::{drained, driven, wishes};
use borders::pools::pool;
use flow::rule::FlowRule;
use tables::survey::Survey;

/// What a leaf that holds `water` gives to the wishes of one side, where all sides together wish for `all`.
fn outflow(water: u32, all: u64, border: Border) -> Outflow
    requires small { SmallBorder border }
    requires all { all ≤ 1228800000 }
    requires within { border.first + border.second ≤ all }
    ensures value { result ≡ outflow_by water all border }
    ensures small { SmallOutflow result }
{
    Outflow {
        first: drained(water, all, border.first),
        second: drained(water, all, border.second),
    }
}

// `Lies` is asked for: it hangs on an address and a basin's levels, and neither alone can carry it.
/// What leaves the leaf at an address, which borders on these sides.
pub fn departure_of<R: FlowRule>(
    motion: &Motion<'_, R>,
    block: Block,
    sides: Sides<Edge>,
) -> Departure
    requires lies { Lies motion.now.survey.head.levels block }
    requires leaf { LeafAt motion.now.survey.head.levels motion.now.survey.levels.now (as_block block) }
    requires around { Around motion.now.survey.head.levels motion.now.survey.levels.now (as_block block) sides }
    ensures value { result ≡ departure_from (R.meaning motion.now.rule.now) motion.now.pace.time (tree (view (surveyed motion.now.survey))) (as_block block) }
    ensures small { SmallDeparture result }
{
    let Survey {
        head,
        beds,
        leaves,
        ..
    } = motion.survey;
    let near = pool(head, beds, leaves, block);
    let around = borders(motion.rule, head, beds, leaves, near, sides, motion.pace);
    let all = wishes(around);
    let outflows = around.map(|border, _| outflow(near.leaf.water, all, border));
    let Sides {
        east,
        north,
        west,
        south,
    } = outflows;
    let after = driven(near.leaf, around);
    Departure {
        outflows,
        total: east.first
            + east.second
            + (north.first + north.second)
            + (west.first + west.second + (south.first + south.second)),
        new_east: after.east,
        new_north: after.north,
    }
}
