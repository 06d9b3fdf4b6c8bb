// The leaf of a square, and what lies beside a leaf.
ghost use Rattle.std.specs.Prelude.{◌≡◌, ◌*◌, ◌^◌, ◌<◌, ◌≤◌, length, get_or};
ghost use Rattle.blocks.specs.Places.{as_block, as_side, Lies, Shallow, beside_in, Around, home_at};

use crate::block::{Block, Edge};
use crate::places::{corner, first, next, parent, second};
use basin::dir::Dir;
use basin::head::Head;
use basin::sides::Sides;
use basin::size::side;

/// The leaf that the square of entry `i` lies in.
pub fn home(head: Head, levels: &[u8], i: usize) -> Block
    requires within { i < length levels.now }
    requires shallow { get_or levels.now i 0 ≤ head.levels }
    ensures { as_block result ≡ home_at head.levels levels.now i }
{
    let n = head.side();
    let level = levels[i];
    let s = side(head.levels - level);
    Block {
        level,
        x: i % n / s,
        y: i / n / s,
    }
}

// Tables one by one, with their lengths asked for: a survey would ask more of callers than this needs.
/// What the leaf at an address borders on in a direction.
pub fn edge(head: Head, levels: &[u8], block: Block, dir: Dir) -> Edge
    requires lies { Lies head.levels block }
    requires full { length levels.now ≡ 2 ^ head.levels * 2 ^ head.levels }
    requires shallow { Shallow head.levels levels.now }
    ensures { as_side result ≡ beside_in head.levels levels.now dir (as_block block) }
{
    let Some(next) = next(head, block, dir) else {
        return Edge::Wall;
    };
    let level = levels[corner(head, next)];
    if level < next.level {
        Edge::One(parent(head, next))
    } else if level == next.level {
        Edge::One(next)
    } else {
        Edge::Two(first(head, next, dir), second(head, next, dir))
    }
}

// The tables as in `edge`; `Lies` and `Shallow` hang on an address and a basin's levels, and neither alone can carry them.
/// What the leaf at an address borders on in each direction.
pub fn sides(head: Head, levels: &[u8], block: Block) -> Sides<Edge>
    requires lies { Lies head.levels block }
    requires full { length levels.now ≡ 2 ^ head.levels * 2 ^ head.levels }
    requires shallow { Shallow head.levels levels.now }
    ensures { Around head.levels levels.now (as_block block) result }
{
    Sides {
        east: edge(head, levels, block, Dir::East),
        north: edge(head, levels, block, Dir::North),
        west: edge(head, levels, block, Dir::West),
        south: edge(head, levels, block, Dir::South),
    }
}
