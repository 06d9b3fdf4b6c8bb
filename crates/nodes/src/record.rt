// A leaf's record in the file.
ghost use Rattle.std.specs.Prelude.{◌≤◌};
ghost use Rattle.numbers.specs.Readers.{Reads};
ghost use Rattle.nodes.specs.Trees.{discharge_at, leaf_at};

use crate::fault::TreeFault;
use basin::leaf::{Leaf, may_hold, may_run};
use numbers::reader::Reader;

/// The discharge that comes next, of a leaf that holds `water`.
fn read_discharge(reader: &mut Reader<'_>, water: u32) -> Result<i64, TreeFault>
    ensures { Reads (λ bs at. discharge_at bs at water) reader.old reader.new result }
{
    let at = reader.at;
    let discharge = reader.signed()?;
    if may_run(water, discharge) {
        Ok(discharge)
    } else {
        Err(TreeFault::Range(at))
    }
}

// The area stays a number with its bound asked for: a type for it would be made and taken apart at each of three calls.
/// The record that comes next, of a leaf of `area` squares.
pub fn read_leaf(reader: &mut Reader<'_>, area: usize) -> Result<Leaf, TreeFault>
    requires { area ≤ 4096 }
    ensures { Reads (λ bs at. leaf_at bs at area) reader.old reader.new result }
{
    let at = reader.at;
    let water = reader.number()?;
    if !may_hold(area, water) {
        return Err(TreeFault::Range(at));
    }
    let water = water as u32;
    let east = read_discharge(reader, water)?;
    let north = read_discharge(reader, water)?;
    Ok(Leaf { water, east, north })
}
