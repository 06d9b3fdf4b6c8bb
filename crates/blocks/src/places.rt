// Where blocks lie.
ghost use Rattle.std.specs.Prelude.{◌≡◌, true, false, ◌*◌, ◌^◌, ◌<◌, ◌≤◌, MatchOption};
ghost use Rattle.runs.specs.Trees.{at_edge as is_at_edge, beyond as the_next, parent as the_parent, first as the_first, second as the_second};
ghost use Rattle.blocks.specs.Places.{as_block, Lies, NextTo, corner_entry};

use crate::block::Block;
use basin::dir::Dir;
use basin::head::Head;
use basin::size::{place, side};

// `Lies` is asked for here and below: it hangs on an address and a basin's levels, and neither alone can carry it.
/// The entry of a block's south-west square.
pub fn corner(head: Head, block: Block) -> usize
    requires { Lies head.levels block }
    ensures value { result ≡ corner_entry head.levels (as_block block) }
    ensures within { result < 2 ^ head.levels * 2 ^ head.levels }
{
    let s = side(head.levels - block.level);
    place(head.side(), block.x * s, block.y * s)
}

/// Whether the basin ends at a block, in a direction.
pub fn at_edge(head: Head, block: Block, dir: Dir) -> bool
    requires { Lies head.levels block }
    ensures { result ≡ is_at_edge dir (as_block block) }
{
    let count = side(block.level);
    // A match: four short arms, one a direction, which a table of closures would only spread out.
    match dir {
        Dir::East => block.x + 1 == count,
        Dir::North => block.y + 1 == count,
        Dir::West => block.x == 0,
        Dir::South => block.y == 0,
    }
}

/// The block of the same level that lies next in a direction.
pub fn beyond(head: Head, block: Block, dir: Dir) -> Block
    requires { (Lies head.levels block) × (is_at_edge dir (as_block block) ≡ false) }
    ensures value { as_block result ≡ the_next dir (as_block block) }
    ensures lies { Lies head.levels result }
{
    let Block { level, x, y } = block;
    // A match: four short arms, one a direction, which a table of closures would only spread out.
    let (x, y) = match dir {
        Dir::East => (x + 1, y),
        Dir::North => (x, y + 1),
        Dir::West => (x - 1, y),
        Dir::South => (x, y - 1),
    };
    Block { level, x, y }
}

/// The block of the same level that lies next in a direction, if the basin goes on there.
pub fn next(head: Head, block: Block, dir: Dir) -> Option<Block>
    requires { Lies head.levels block }
    ensures { MatchOption result (is_at_edge dir (as_block block) ≡ true) (NextTo head.levels dir block) }
{
    if at_edge(head, block, dir) {
        None
    } else {
        Some(beyond(head, block, dir))
    }
}

/// The block that this one is a quarter of.
pub fn parent(head: Head, block: Block) -> Block
    requires { (Lies head.levels block) × (1 ≤ block.level) }
    ensures value { as_block result ≡ the_parent (as_block block) }
    ensures lies { Lies head.levels result }
{
    Block {
        level: block.level - 1,
        x: block.x / 2,
        y: block.y / 2,
    }
}

/// The southern or western of the two quarters that a neighbour sees on looking at the block in that direction.
pub fn first(head: Head, block: Block, dir: Dir) -> Block
    requires { (Lies head.levels block) × (block.level < head.levels) }
    ensures value { as_block result ≡ the_first dir (as_block block) }
    ensures lies { Lies head.levels result }
{
    // A match says each direction's case at once; closures for them would be the same arms, further apart.
    match dir {
        Dir::East | Dir::North => Block {
            level: block.level + 1,
            x: block.x * 2,
            y: block.y * 2,
        },
        Dir::West => Block {
            level: block.level + 1,
            x: block.x * 2 + 1,
            y: block.y * 2,
        },
        Dir::South => Block {
            level: block.level + 1,
            x: block.x * 2,
            y: block.y * 2 + 1,
        },
    }
}

// Not one function with `first`: the arms give other offsets in each direction.
/// The northern or eastern of those two quarters.
pub fn second(head: Head, block: Block, dir: Dir) -> Block
    requires { (Lies head.levels block) × (block.level < head.levels) }
    ensures value { as_block result ≡ the_second dir (as_block block) }
    ensures lies { Lies head.levels result }
{
    // A match says each direction's case at once; closures for them would be the same arms, further apart.
    match dir {
        Dir::East => Block {
            level: block.level + 1,
            x: block.x * 2,
            y: block.y * 2 + 1,
        },
        Dir::North => Block {
            level: block.level + 1,
            x: block.x * 2 + 1,
            y: block.y * 2,
        },
        Dir::West | Dir::South => Block {
            level: block.level + 1,
            x: block.x * 2 + 1,
            y: block.y * 2 + 1,
        },
    }
}
