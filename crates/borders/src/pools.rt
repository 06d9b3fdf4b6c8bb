// Reading a leaf's numbers.
ghost use Rattle.std.specs.Prelude.{◌≡◌, ◌-◌, ◌*◌, ◌^◌, ◌≤◌, length, pos, int_div, unsigned_abs};
ghost use Rattle.flow.specs.States.{state_of};
ghost use Rattle.runs.specs.Step.{state_at};
ghost use Rattle.blocks.specs.Places.{as_block, Lies};
ghost use Rattle.borders.specs.Pools.{pool_in, Kept};

use crate::pool::Pool;
use basin::dir::Dir;
use basin::head::Head;
use basin::leaf::Leaf;
use basin::size::side;
use blocks::block::Block;
use blocks::places::corner;
use flow::side::Side;
use looks::surface::block_beds;

/// A speed in whole millimetres a second, toward zero; water that is not there has none.
fn speed(discharge: i64, water: u32) -> i64
    ensures { result ≡ int_div discharge (pos water) }
{
    if water == 0 {
        0
    } else {
        discharge / water as i64
    }
}

// Tables one by one, with their lengths asked for: a survey would ask more of callers than this needs.
/// The numbers of the leaf at an address.
pub fn pool(head: Head, beds: &[u16], leaves: &[Leaf], block: Block) -> Pool
    requires lies { Lies head.levels block }
    requires beds { length beds.now ≡ 2 ^ head.levels * 2 ^ head.levels }
    requires leaves { length leaves.now ≡ 2 ^ head.levels * 2 ^ head.levels }
    ensures { result ≡ pool_in head.levels beds.now leaves.now (as_block block) }
{
    let n = head.side();
    let s = side(head.levels - block.level);
    let leaf = leaves[corner(head, block)];
    let ground = block_beds(beds, n, block.x * s, block.y * s, s);
    let area = (s * s) as u64;
    Pool {
        leaf,
        surface: (leaf.water as u64 + ground) / area,
        bed: ground / area,
        side: s as u32,
        eastward: speed(leaf.east, leaf.water),
        northward: speed(leaf.north, leaf.water),
    }
}

// `Kept` is asked for and no ghost field: definitions in specs/ build pools too, and would have to carry proofs.
/// The leaf's side of a face with this sill, across which one goes in that direction or against it.
pub fn side_at(pool: Pool, sill: u64, dir: Dir) -> Side
    requires { (Kept pool) × (pool.bed ≤ sill) }
    ensures { state_of result ≡ state_at dir (pool.surface - sill) pool.leaf }
{
    if pool.surface <= sill {
        return Side { h: 0, u: 0, v: 0 };
    }
    let h = (pool.surface - sill) as u32;
    // A match says each direction's case at once; closures for them would be the same arms, further apart.
    match dir {
        Dir::East | Dir::West => wet_side(h, pool.eastward, pool.northward),
        Dir::North | Dir::South => wet_side(h, pool.northward, pool.eastward),
    }
}

/// The side with these numbers.
fn wet_side(h: u32, u: i64, v: i64) -> Side
    requires { (1 ≤ h) × ((h ≤ 30000) × ((unsigned_abs u ≤ 10000) × (unsigned_abs v ≤ 10000))) }
    ensures { (result.h ≡ h) × ((result.u ≡ u) × (result.v ≡ v)) }
{
    Side { h, u, v }
}
