// A leaf's record, measured and written.
ghost use Rattle.std.specs.Prelude.{◌≡◌, ◌≤◌, length};
ghost use Rattle.basin.specs.Records.{InRange};
ghost use Rattle.nodes.specs.Written.{leaf_bytes};
ghost use Rattle.encode.specs.Writers.{Room, Puts};

use crate::number::{number_length, to_coded};
use crate::writer::Writer;
use basin::leaf::Leaf;

// `InRange` is asked for and no part of `Leaf`: a record may hold any numbers until it is validated.
/// The bytes that a record takes.
pub fn leaf_length(leaf: Leaf) -> usize
    requires { InRange 4096 leaf }
    ensures value { result ≡ length (leaf_bytes leaf) }
    ensures most { result ≤ 18 }
{
    number_length(leaf.water as u64)
        + number_length(to_coded(leaf.east))
        + number_length(to_coded(leaf.north))
}

// `Room` is asked for: it hangs on the writer and on what is written, and neither alone can carry it.
/// Writes a record.
pub fn put_leaf(writer: &mut Writer<'_>, leaf: Leaf)
    requires small { InRange 4096 leaf }
    requires room { Room (leaf_bytes leaf) writer.old }
    ensures { Puts (leaf_bytes leaf) writer.old writer.new }
{
    writer.number(leaf.water as u64);
    writer.number(to_coded(leaf.east));
    writer.number(to_coded(leaf.north));
}
