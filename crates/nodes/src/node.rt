// The nodes of a tree, one after another.
ghost use Rattle.std.specs.Prelude.{length};
ghost use Rattle.numbers.specs.Readers.{Passes};
ghost use Rattle.nodes.specs.Trees.{node_at};
ghost use Rattle.nodes.specs.Paint.{Drawn, level_of, record_of};
ghost use Rattle.nodes.specs.Targets.{LiesIn};

use crate::fault::TreeFault;
use crate::mark::Mark;
use crate::record::read_leaf;
use crate::target::Target;
use basin::leaf::Leaf;
use numbers::reader::Reader;

// `LiesIn` is asked for: it hangs on target and table, and neither alone can carry it.
/// Reads the node that comes next into its target in both tables.
pub fn read_node(
    reader: &mut Reader<'_>,
    target: Target,
    levels: &mut [u8],
    leaves: &mut [Leaf],
) -> Result<(), TreeFault>
    requires levels { LiesIn target (length levels.old) }
    requires leaves { LiesIn target (length leaves.old) }
    ensures next { Passes (node_at target.height) reader.old reader.new result }
    ensures levels { Drawn (level_of target.levels) target.stride target.height target.corner (node_at target.height reader.old.bytes.now reader.old.at) levels.old levels.new }
    ensures leaves { Drawn record_of target.stride target.height target.corner (node_at target.height reader.old.bytes.now reader.old.at) leaves.old leaves.new }
{
    let at = reader.at;
    match Mark::try_from(reader.number()?) {
        Ok(Mark::Leaf) => {
            let leaf = read_leaf(reader, target.side() * target.side())?;
            target.fill(levels, target.levels - target.height);
            target.fill(leaves, leaf);
            Ok(())
        }
        Ok(Mark::Cut) => {
            let Some(quarters) = target.quarters() else {
                return Err(TreeFault::Range(at));
            };
            read_node(reader, quarters.sw, levels, leaves)?;
            read_node(reader, quarters.se, levels, leaves)?;
            read_node(reader, quarters.nw, levels, leaves)?;
            read_node(reader, quarters.ne, levels, leaves)
        }
        Err(_) => Err(TreeFault::Range(at)),
    }
}
