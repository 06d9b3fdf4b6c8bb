// What a leaf gives to all wishes, and its discharges afterwards.
ghost use Rattle.std.specs.Prelude.{◌≡◌, ◌≤◌, ◌+ℤ◌, unsigned_abs};
ghost use Rattle.runs.specs.Step.{drained as the_share};
ghost use Rattle.borders.specs.Borders.{SmallBorders, wishes_in};

use crate::border::Border;
use basin::leaf::Leaf;
use basin::sides::Sides;

/// All the water that wishes to leave a leaf.
pub fn wishes(borders: Sides<Border>) -> u64
    requires { SmallBorders borders }
    ensures value { result ≡ wishes_in borders }
    ensures small { result ≤ 1228800000 }
{
    let east = borders.east.first + borders.east.second;
    let north = borders.north.first + borders.north.second;
    let west = borders.west.first + borders.west.second;
    let south = borders.south.first + borders.south.second;
    east + north + (west + south)
}

/// What a leaf that holds `water` gives to one wish: all of it, or its share where all wishes are for more than there is.
pub fn drained(water: u32, all: u64, wish: u64) -> u32
    requires { (wish ≤ all) × (all ≤ 1228800000) }
    ensures value { result ≡ the_share water all wish }
    ensures small { result ≤ wish }
{
    if all <= water as u64 {
        wish as u32
    } else {
        (wish * water as u64 / all) as u32
    }
}

/// A leaf's record with the discharges that its sides leave it, not yet clipped.
pub fn driven(leaf: Leaf, borders: Sides<Border>) -> Leaf
    requires small { SmallBorders borders }
    requires east { unsigned_abs leaf.east ≤ 1228800000000 }
    requires north { unsigned_abs leaf.north ≤ 1228800000000 }
    ensures water { result.water ≡ leaf.water }
    ensures east { result.east ≡ leaf.east +ℤ (borders.east.across +ℤ borders.west.across) +ℤ (borders.north.along +ℤ borders.south.along) }
    ensures north { result.north ≡ leaf.north +ℤ (borders.north.across +ℤ borders.south.across) +ℤ (borders.east.along +ℤ borders.west.along) }
{
    let Sides {
        east,
        north,
        west,
        south,
    } = borders;
    Leaf {
        water: leaf.water,
        east: gathered(
            leaf.east,
            east.across,
            west.across,
            north.along,
            south.along,
        ),
        north: gathered(
            leaf.north,
            north.across,
            south.across,
            east.along,
            west.along,
        ),
    }
}

/// A discharge with its four changes.
fn gathered(discharge: i64, a: i64, b: i64, c: i64, d: i64) -> i64
    requires { (unsigned_abs discharge ≤ 1228800000000) × ((unsigned_abs a ≤ 7680000000000) × ((unsigned_abs b ≤ 7680000000000) × ((unsigned_abs c ≤ 7680000000000) × (unsigned_abs d ≤ 7680000000000)))) }
    ensures { result ≡ discharge +ℤ (a +ℤ b) +ℤ (c +ℤ d) }
{
    discharge + (a + b) + (c + d)
}
