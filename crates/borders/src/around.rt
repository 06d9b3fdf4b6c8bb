// The faces of one leaf, side by side.
ghost use Rattle.std.specs.Prelude.{◌≡◌, ◌*◌, ◌^◌, length};
ghost use Rattle.blocks.specs.Places.{as_side};
ghost use Rattle.borders.specs.Borders.{border_of, borders_of, LeavesOn, SmallBorder, SmallBorders};
ghost use Rattle.borders.specs.Pools.{Kept};

use crate::border::Border;
use crate::pool::Pool;
use crate::pools::pool;
use crate::shares::{at_wall, between};
use basin::dir::Dir;
use basin::head::Head;
use basin::leaf::Leaf;
use basin::sides::Sides;
use blocks::block::Edge;
use faces::pace::Pace;
use flow::rule::FlowRule;

// What is asked of the edge hangs on head, tables and edge, and none alone can carry it.
/// What one side of a leaf does to it.
fn border<R: FlowRule>(
    rule: &R,
    head: Head,
    beds: &[u16],
    leaves: &[Leaf],
    near: Pool,
    edge: Edge,
    dir: Dir,
    pace: Pace,
) -> Border
    requires kept { Kept near }
    requires beside { LeavesOn head.levels beds.now leaves.now edge }
    requires beds { length beds.now ≡ 2 ^ head.levels * 2 ^ head.levels }
    requires leaves { length leaves.now ≡ 2 ^ head.levels * 2 ^ head.levels }
    ensures value { result ≡ border_of (R.meaning rule.now) pace.time pace.width head.levels beds.now leaves.now dir near (as_side edge) }
    ensures small { SmallBorder result }
{
    // A match: an edge is data of the tree, with other blocks in each case.
    match edge {
        Edge::Wall => {
            let wall = at_wall(rule, near, dir, pace);
            Border {
                first: 0,
                second: 0,
                across: wall.across,
                along: wall.along,
            }
        }
        Edge::One(block) => {
            let one = between(rule, near, pool(head, beds, leaves, block), dir, pace);
            Border {
                first: one.wish,
                second: 0,
                across: one.across,
                along: one.along,
            }
        }
        Edge::Two(first, second) => {
            let one = between(rule, near, pool(head, beds, leaves, first), dir, pace);
            let two = between(rule, near, pool(head, beds, leaves, second), dir, pace);
            Border {
                first: one.wish,
                second: two.wish,
                across: one.across + two.across,
                along: one.along + two.along,
            }
        }
    }
}

// Tables one by one, with their lengths asked for: a survey would ask more of callers than this needs.
/// What the four sides of a leaf do to it.
pub fn borders<R: FlowRule>(
    rule: &R,
    head: Head,
    beds: &[u16],
    leaves: &[Leaf],
    near: Pool,
    sides: Sides<Edge>,
    pace: Pace,
) -> Sides<Border>
    requires kept { Kept near }
    requires east { LeavesOn head.levels beds.now leaves.now sides.east }
    requires north { LeavesOn head.levels beds.now leaves.now sides.north }
    requires west { LeavesOn head.levels beds.now leaves.now sides.west }
    requires south { LeavesOn head.levels beds.now leaves.now sides.south }
    requires beds { length beds.now ≡ 2 ^ head.levels * 2 ^ head.levels }
    requires leaves { length leaves.now ≡ 2 ^ head.levels * 2 ^ head.levels }
    ensures value { result ≡ borders_of (R.meaning rule.now) pace.time pace.width head.levels beds.now leaves.now near sides }
    ensures small { SmallBorders result }
{
    sides.map(|edge, dir| border(rule, head, beds, leaves, near, edge, dir, pace))
}
