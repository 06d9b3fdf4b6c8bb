// The beds, measured and written.
ghost use Rattle.std.specs.Prelude.{◌≡◌, ◌≤◌, length};
ghost use Rattle.encode.specs.Bytes.{beds_bytes};
ghost use Rattle.encode.specs.Writers.{Room, Puts};

use crate::number::number_length;
use crate::writer::Writer;

/// The bytes that the beds take.
pub fn beds_length(beds: &[u16]) -> usize
    requires { length beds.now ≤ 4096 }
    ensures value { result ≡ length (beds_bytes beds.now) }
    ensures most { result ≤ 24576 }
{
    beds.iter().map(|bed| number_length(u64::from(*bed))).sum()
}

// `Room` is asked for: it hangs on the writer and on what is written, and neither alone can carry it.
/// Writes the beds.
pub fn put_beds(writer: &mut Writer<'_>, beds: &[u16])
    requires { Room (beds_bytes beds.now) writer.old }
    ensures { Puts (beds_bytes beds.now) writer.old writer.new }
{
    for bed in beds {
        writer.number(u64::from(*bed));
    }
}
