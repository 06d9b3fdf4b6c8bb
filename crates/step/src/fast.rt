// Whether a step is too long for the fastest leaf.
ghost use Rattle.std.specs.Prelude.{◌≡◌, ◌+◌, ◌*◌, ◌/◌, ◌^◌, ◌≤◌, max, length, unsigned_abs};
ghost use Rattle.basin.specs.Records.{InRange};
ghost use Rattle.basin.specs.Squares.{some_square};
ghost use Rattle.blocks.specs.Places.{Shallow};
ghost use Rattle.runs.specs.Roots.{square_root as root_of};
ghost use Rattle.step.specs.Speeds.{fast, fast_in, AllInRange};

use basin::head::Head;
use basin::leaf::Leaf;
use basin::size::side;
use flow::root::root;

// A leaf's range hangs on its area (`InRange`), so it is asked for and no part of `Leaf`.
/// The larger of a wet leaf's two speeds plus the speed of its waves.
fn fastest(side: usize, leaf: Leaf) -> u64
    requires wet { 1 ≤ leaf.water }
    requires some { 1 ≤ side }
    requires few { side ≤ 64 }
    requires range { InRange (side * side) leaf }
    ensures value { result ≡ max (unsigned_abs leaf.east / leaf.water) (unsigned_abs leaf.north / leaf.water) + root_of (9810 * (leaf.water / (side * side))) }
    ensures most { result ≤ 4294977296 }
{
    let water = leaf.water as u64;
    let speed = (leaf.east.unsigned_abs() / water).max(leaf.north.unsigned_abs() / water);
    let depth = leaf.water / (side * side) as u32;
    speed + root(9810 * depth) as u64
}

// The range as in `fastest`.
/// Whether a leaf is crossed by more than a quarter in the time.
fn is_fast(width: u16, side: usize, leaf: Leaf, time: u32) -> bool
    requires some { 1 ≤ side }
    requires few { side ≤ 64 }
    requires range { InRange (side * side) leaf }
    requires time { time ≤ 2000 }
    ensures { result ≡ fast width side time leaf }
{
    if leaf.water == 0 {
        return false;
    }
    let quarter = 1_000_000 * width as u64 * side as u64;
    quarter < 4 * fastest(side, leaf) * time as u64
}

// Tables one by one, with their lengths asked for: a survey would ask more of callers than this needs.
/// Whether the time is too long for some leaf.
pub fn too_fast(head: Head, levels: &[u8], leaves: &[Leaf], time: u32) -> bool
    requires levels { length levels.now ≡ 2 ^ head.levels * 2 ^ head.levels }
    requires leaves { length leaves.now ≡ 2 ^ head.levels * 2 ^ head.levels }
    requires shallow { Shallow head.levels levels.now }
    requires range { AllInRange head.levels levels.now leaves.now }
    requires time { time ≤ 2000 }
    ensures { result ≡ some_square (2 ^ head.levels) (λ x y. fast_in head.levels head.width levels.now leaves.now time (y * 2 ^ head.levels + x)) }
{
    for (i, level) in levels.iter().enumerate() {
        let s = side(head.levels - *level);
        if is_fast(head.width, s, leaves[i], time) {
            return true;
        }
    }
    false
}
