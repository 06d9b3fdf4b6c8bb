// The lines of a basin, in the order of its file.
ghost use Rattle.std.specs.Prelude.{◌≡◌, ◌++◌, IfOk, OnOk};
ghost use Rattle.basin.specs.Basins.{view};
ghost use Rattle.tables.specs.Surveys.{surveyed};
ghost use Rattle.sheet.specs.Lines.{lines_at};

use crate::line::{Line, line_at};
use basin::quarters::Quarters;
use encode::tree::Node;
use std::alloc::{AllocError, Global};
use tables::survey::Survey;

/// Adds the lines of the leaves in a node.
fn list_block(node: Node<'_>, lines: &mut Vec<Line>) -> Result<(), AllocError>
    ensures { OnOk result (lines.new.items ≡ lines.old.items ++ lines_at (view (surveyed node.entry.survey.now)) node.entry.spot.height node.entry.spot.x node.entry.spot.y) }
{
    match node.quarters() {
        Some(Quarters { sw, se, nw, ne }) => {
            list_block(sw, lines)?;
            list_block(se, lines)?;
            list_block(nw, lines)?;
            list_block(ne, lines)
        }
        None => {
            lines.push(line_at(node))?;
            Ok(())
        }
    }
}

/// The lines of all leaves, depth first.
pub fn list(heap: Global, survey: &Survey<'_>) -> Result<Vec<Line>, AllocError>
    ensures { IfOk result (λ v. v.items ≡ lines_at (view (surveyed survey.now)) survey.now.head.levels 0 0) }
{
    let mut lines = Vec::new(heap);
    list_block(Node::whole(survey), &mut lines)?;
    Ok(lines)
}
