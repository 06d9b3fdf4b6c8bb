// Water on its way to the entries of the work table.
ghost use Rattle.std.specs.Prelude.{◌≡◌, ◌+◌, ◌*◌, ◌^◌, ◌<◌, length};
ghost use Rattle.blocks.specs.Places.{as_block, as_side, Lies};
ghost use Rattle.visits.specs.Departures.{RoomOn};
ghost use Rattle.visits.specs.Visits.{held, added, sent};

use crate::departure::Outflow;
use basin::head::Head;
use basin::leaf::Leaf;
use blocks::block::{Block, Edge};
use blocks::places::corner;

// The work table's length is asked for, as its content changes with each send; a type of table and length would be rebuilt each time.
/// Adds water to the entry of the leaf at an address.
fn add_water(head: Head, work: &mut [Leaf], block: Block, amount: u32)
    requires lies { Lies head.levels block }
    requires full { length work.old ≡ 2 ^ head.levels * 2 ^ head.levels }
    requires room { (held head.levels work.old (as_block block)).water + amount < 2 ^ 32 }
    ensures { work.new ≡ added head.levels work.old (as_block block) amount }
{
    let i = corner(head, block);
    work[i].water += amount;
}

// The work table as in `add_water`.
/// Adds what leaves across a side to the entries of the leaves there.
pub fn send(head: Head, work: &mut [Leaf], edge: Edge, outflow: Outflow)
    requires full { length work.old ≡ 2 ^ head.levels * 2 ^ head.levels }
    requires room { RoomOn head.levels work.old edge outflow }
    ensures { work.new ≡ sent head.levels work.old (as_side edge) outflow.first outflow.second }
{
    // A match: an edge is data of the tree, with other blocks in each case.
    match edge {
        Edge::Wall => {}
        Edge::One(block) => add_water(head, work, block, outflow.first),
        Edge::Two(first, second) => {
            add_water(head, work, first, outflow.first);
            add_water(head, work, second, outflow.second);
        }
    }
}
