// A valid basin, lent to be read.
ghost use Rattle.basin.specs.Basins.{basin_of, ValidBasin};

use basin::head::Head;
use basin::leaf::Leaf;

/// The head and the tables of a valid basin, lent to be read. No other survey exists: whoever is handed one need not ask again.
#[derive(Clone, Copy)]
pub struct Survey<'a> {
    pub head: Head,
    pub levels: &'a [u8],
    pub beds: &'a [u16],
    pub leaves: &'a [Leaf],
    ghost valid: { ValidBasin (basin_of head levels.now beds.now leaves.now) },
}
