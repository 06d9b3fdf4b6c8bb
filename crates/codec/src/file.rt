// The whole file, read into a basin's tables.
ghost use Rattle.std.specs.Prelude.{◌≡◌, ◌*◌, ◌^◌, length, IfOk};
ghost use Rattle.basin.specs.Basins.{heading, tables, basin_of, side, ValidBasin};
ghost use Rattle.codec.specs.Files.{head_at, squares_of, body_at, read_of};
ghost use Rattle.codec.specs.Seen.{seen, whether, Charts};

use crate::beds::read_beds;
use crate::fault::FileFault;
use crate::heading::read_head;
use basin::head::Head;
use basin::leaf::Leaf;
use nodes::fault::TreeFault;
use nodes::node::read_node;
use nodes::target::Target;
use numbers::reader::Reader;
use tables::balance::is_balanced;

/// The most squares that a basin has.
const MOST: usize = 4096;

/// Reads the tree and the beds of a basin from the next byte to the end of the file, into tables with an entry for each of its squares.
// Tables one by one: `read_node` takes two of them and `read_beds` the third, so a struct would be taken apart at once.
fn read_body(
    reader: &mut Reader<'_>,
    head: Head,
    levels: &mut [u8],
    beds: &mut [u16],
    leaves: &mut [Leaf],
) -> Result<(), FileFault>
    requires levels { length levels.old ≡ side (heading head) * side (heading head) }
    requires beds { length beds.old ≡ side (heading head) * side (heading head) }
    requires leaves { length leaves.old ≡ side (heading head) * side (heading head) }
    ensures whether { result ≡ whether (body_at head.levels reader.old.bytes.now reader.old.at) }
    ensures tables { Charts (heading head) (body_at head.levels reader.old.bytes.now reader.old.at) (tables levels.new beds.new leaves.new) }
{
    read_node(reader, Target::whole(head), levels, leaves)?;
    read_beds(reader, beds)?;
    if reader.at == reader.bytes.len() {
        Ok(())
    } else {
        Err(FileFault::Trailing(reader.at))
    }
}

/// The entries that the tables for a file's basin have, by its head alone; 0 where the head cannot be read.
// No `Option`: no basin has 0 squares, and tables of either length are made and handed to `read`, which says what is wrong.
pub fn table_length(bytes: &[u8]) -> usize
    ensures { result ≡ squares_of (head_at bytes.now) }
{
    read_head(bytes).map_or(0, |(head, _)| head.squares())
}

/// Reads a basin's file into its head and three tables. What it grants is a valid basin; where it refuses, the tables are as they were.
pub fn read(
    bytes: &[u8],
    levels: &mut [u8],
    beds: &mut [u16],
    leaves: &mut [Leaf],
) -> Result<Head, FileFault>
    ensures read { (seen result, tables levels.new beds.new leaves.new) ≡ read_of bytes.now (tables levels.old beds.old leaves.old) }
    ensures valid { IfOk result (λ h. ValidBasin (basin_of h levels.new beds.new leaves.new)) }
{
    let (head, at) = read_head(bytes)?;
    let mut reader = Reader { bytes, at };
    let squares = head.squares();
    // Arrays, since the library takes no heap.
    let mut shape = [0; MOST];
    let mut heights = [0; MOST];
    let mut records = [Leaf::DRY; MOST];
    let shape = &mut shape[..squares];
    let heights = &mut heights[..squares];
    let records = &mut records[..squares];
    read_body(&mut reader, head, shape, heights, records)?;
    if !is_balanced(shape, head.side()) {
        return Err(FileFault::Tree(TreeFault::Unbalanced(bytes.len())));
    }
    if levels.len() != squares || beds.len() != squares || leaves.len() != squares {
        return Err(FileFault::TableLength(bytes.len()));
    }
    levels.copy_from_slice(shape);
    beds.copy_from_slice(heights);
    leaves.copy_from_slice(records);
    Ok(head)
}
