// The beds in the file.
ghost use Rattle.std.specs.Prelude.{◌≡◌, length, IfOk};
ghost use Rattle.numbers.specs.Readers.{Passes};
ghost use Rattle.codec.specs.Files.{beds_at};

use crate::fault::FileFault;
use crate::heading::read_ranged;
use numbers::reader::Reader;

/// Reads a bed for each entry of the table.
pub fn read_beds(reader: &mut Reader<'_>, beds: &mut [u16]) -> Result<(), FileFault>
    ensures next { Passes (beds_at (length beds.old)) reader.old reader.new result }
    ensures beds { IfOk (beds_at (length beds.old) reader.old.bytes.now reader.old.at) (λ b. beds.new ≡ b.0) }
{
    for bed in beds.iter_mut() {
        *bed = read_ranged(reader, 0, 30_000)? as u16;
    }
    Ok(())
}
