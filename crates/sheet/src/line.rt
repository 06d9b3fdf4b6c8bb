// A leaf's line.
ghost use Rattle.std.specs.Prelude.{◌≡◌, [], ◌∷◌, Some};
ghost use Rattle.std.specs.Fmt.{decimal, signed_decimal};
ghost use Rattle.std.specs.List.{join_with_byte};
ghost use Rattle.basin.specs.Basins.{view};
ghost use Rattle.tables.specs.Surveys.{surveyed};
ghost use Rattle.sheet.specs.Lines.{line};

use basin::size::side;
use basin::square::Square;
use encode::tree::Node;
use kaftanore::Leaf;
use looks::surface::surface_at;
use nodes::spot::Spot;
use std::fmt;

/// What the sheet says of a leaf: its south-west square, its side, its surface number, and its record.
#[derive(Clone, Copy)]
pub struct Line {
    pub x: usize,
    pub y: usize,
    pub side: usize,
    pub surface: u64,
    pub water: u32,
    pub east: i64,
    pub north: i64,
}

/// A line is shown as its seven numbers.
impl fmt::Display for Line {
    ghost output = { λ l. Some (join_with_byte 32 (decimal l.x ∷ decimal l.y ∷ decimal l.side ∷ decimal l.surface ∷ decimal l.water ∷ signed_decimal l.east ∷ signed_decimal l.north ∷ [])) };

    fn fmt<W: fmt::Write>(&self, f: &mut fmt::Formatter<W>) -> fmt::Result {
        write!(
            f,
            "{} {} {} {} {} {} {}",
            self.x, self.y, self.side, self.surface, self.water, self.east, self.north
        )
    }
}

/// The line of the leaf that a node of the tree is.
pub fn line_at(node: Node<'_>) -> Line
    ensures { result ≡ line (view (surveyed node.entry.survey.now)) node.entry.spot.x node.entry.spot.y }
{
    let Spot { x, y, .. } = node.spot;
    let head = node.survey.head;
    let side = side(head.levels - node.level());
    let n = head.side();
    let surface = surface_at(node.survey, Square { x, y, n });
    let Leaf { water, east, north } = node.leaf();
    Line {
        x,
        y,
        side,
        surface,
        water,
        east,
        north,
    }
}
