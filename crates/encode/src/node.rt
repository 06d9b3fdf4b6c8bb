// The nodes of the tree, measured and written.
ghost use Rattle.std.specs.Prelude.{◌≡◌, ◌≤◌, length};
ghost use Rattle.encode.specs.Nodes.{bytes_of};
ghost use Rattle.encode.specs.Writers.{Room, Puts};

use crate::record::{leaf_length, put_leaf};
use crate::tree::Node;
use crate::writer::Writer;
use basin::quarters::Quarters;
use nodes::mark::Mark;

/// The bytes that a node takes.
pub fn node_length(node: Node<'_>) -> usize
    ensures value { result ≡ length (bytes_of node.entry) }
    ensures most { result ≤ 81920 }
{
    match node.quarters() {
        Some(Quarters { sw, se, nw, ne }) => {
            1 + node_length(sw) + node_length(se) + node_length(nw) + node_length(ne)
        }
        None => 1 + leaf_length(node.leaf()),
    }
}

// `Room` is asked for: it hangs on the writer and on what is written, and neither alone can carry it.
/// Writes a node.
pub fn put_node(writer: &mut Writer<'_>, node: Node<'_>)
    requires { Room (bytes_of node) writer.old }
    ensures { Puts (bytes_of node.entry) writer.old writer.new }
{
    match node.quarters() {
        Some(Quarters { sw, se, nw, ne }) => {
            writer.number(Mark::Cut as u64);
            put_node(writer, sw);
            put_node(writer, se);
            put_node(writer, nw);
            put_node(writer, ne);
        }
        None => {
            writer.number(Mark::Leaf as u64);
            put_leaf(writer, node.leaf());
        }
    }
}
