// The whole file, measured and written.
ghost use Rattle.std.specs.Prelude.{◌≡◌, ◌≤◌, length};
ghost use Rattle.std.proofs.lemmas.List.Edits.{sets};
ghost use Rattle.basin.specs.Basins.{basin_of};
ghost use Rattle.tables.specs.Surveys.{surveyed};
ghost use Rattle.encode.specs.Bytes.{file_bytes, write_of};
ghost use Rattle.encode.specs.Trips.{WrittenBasinIsRead, ReadFileIsWritten};

use crate::beds::{beds_length, put_beds};
use crate::node::{node_length, put_node};
use crate::number::number_length;
use crate::tree::Node;
use crate::writer::Writer;
use basin::head::Head;
use basin::leaf::Leaf;
use basin::refusal::Refusal;
use tables::survey::Survey;

/// The bytes that a valid basin's file has.
fn file_length(survey: &Survey<'_>) -> usize
    ensures { result ≡ length (file_bytes (surveyed survey.now)) }
{
    let head = survey.head;
    let levels_length = number_length(head.levels as u64);
    let width_length = number_length(head.width as u64);
    let loose_length = number_length(head.loose as u64);
    let tree_length = node_length(Node::whole(survey));
    levels_length + width_length + loose_length + tree_length + beds_length(survey.beds)
}

/// Writes a valid basin's file into the first bytes of `out`.
fn put_file(out: &mut [u8], survey: &Survey<'_>)
    requires { length (file_bytes (surveyed survey.now)) ≤ length out.old }
    ensures { out.new ≡ sets out.old 0 (file_bytes (surveyed survey.now)) }
{
    let head = survey.head;
    let mut writer = Writer { out, at: 0 };
    writer.number(head.levels as u64);
    writer.number(head.width as u64);
    writer.number(head.loose as u64);
    put_node(&mut writer, Node::whole(survey));
    put_beds(&mut writer, survey.beds);
}

// Tables come one by one, since it is here that they become a survey.
/// Writes a basin's file into the first bytes of `out`, and answers how many. Where it refuses, `out` is as it was.
pub fn write(
    head: Head,
    levels: &[u8],
    beds: &[u16],
    leaves: &[Leaf],
    out: &mut [u8],
) -> Result<usize, Refusal>
    ensures written { (result, out.new) ≡ write_of (basin_of head levels.now beds.now leaves.now) out.old }
    ensures back { WrittenBasinIsRead }
    ensures forth { ReadFileIsWritten }
{
    let survey = Survey::new(head, levels, beds, leaves)?;
    let length = file_length(&survey);
    if out.len() < length {
        return Err(Refusal::OutputShort);
    }
    put_file(out, &survey);
    Ok(length)
}

#[cfg(test)]
mod tests {
    use super::*;
    use codec::file::read;

    #[test]
    fn basins_are_written_and_read_back(rt: HostRuntime) {
        let one = Head {
            levels: 0,
            width: 1,
            loose: 0,
        };
        let mut out = [9; 10];
        assert!(rt;
            write(one, &[0], &[0], &[Leaf::DRY], &mut out).ok() == Some(8),
            "its length"
        );
        assert!(rt;
            out == [0, 1, 0, 0, 0, 0, 0, 0, 9, 9],
            "the dry basin of one square"
        );
        let mut short = [9; 7];
        assert!(rt;
            write(one, &[0], &[0], &[Leaf::DRY], &mut short).err() == Some(Refusal::OutputShort),
            "a byte too short"
        );
        assert!(rt; short == [9; 7], "as it was");

        let head = Head {
            levels: 1,
            width: 300,
            loose: 1_000_000,
        };
        let wet = Leaf {
            water: 200,
            east: -3,
            north: 2_000_000,
        };
        let four = [wet, Leaf::DRY, Leaf::DRY, wet];
        let heights = [0, 1, 30_000, 200];
        let mut file = [0; 38];
        assert!(rt;
            write(head, &[1; 4], &heights, &four, &mut file).ok() == Some(38),
            "four leaves"
        );
        let mut levels = [9; 4];
        let mut beds = [9; 4];
        let mut leaves = [Leaf::DRY; 4];
        assert!(rt;
            read(&file, &mut levels, &mut beds, &mut leaves).ok() == Some(head),
            "read back"
        );
        assert!(rt;
            levels == [1; 4] && beds == heights && leaves == four,
            "its tables"
        );
    }
}
