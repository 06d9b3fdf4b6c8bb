// The record that ends a call.
ghost use Rattle.std.specs.Prelude.{◌≡◌, ◌*◌};
ghost use Rattle.basin.specs.Finish.{clipped, finish as finished};

use crate::leaf::Leaf;

/// A discharge brought to the nearest that a leaf with this water may have.
fn clip(water: u32, discharge: i64) -> i64
    ensures { result ≡ clipped (10000 * water) discharge }
{
    let most = 10_000 * water as i64;
    discharge.clamp(-most, most)
}

/// The record of a leaf of `area` squares that has come to hold this water and these discharges.
pub fn finish(area: usize, water: u32, east: i64, north: i64) -> Leaf
    ensures { result ≡ finished area water east north }
{
    Leaf {
        water,
        east: clip(water, east),
        north: clip(water, north),
    }
}
