// Whether tables are as long as a basin asks.
ghost use Rattle.std.specs.Prelude.{Decides};
ghost use Rattle.basin.specs.Basins.{heading, tables, Full};

use crate::head::Head;
use crate::leaf::Leaf;

impl Head {
    /// Whether each table has as many entries as the basin has squares.
    pub fn fits(&self, levels: &[u8], beds: &[u16], leaves: &[Leaf]) -> bool
        ensures { Decides result (Full (heading self.now) (tables levels.now beds.now leaves.now)) }
    {
        let squares = self.squares();
        levels.len() == squares && beds.len() == squares && leaves.len() == squares
    }
}
