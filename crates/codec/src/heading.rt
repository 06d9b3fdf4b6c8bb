// The head in the file.
ghost use Rattle.std.specs.Prelude.{◌≡◌};
ghost use Rattle.numbers.specs.Readers.{Reads};
ghost use Rattle.codec.specs.Files.{ranged_at, head_at};
ghost use Rattle.codec.specs.Seen.{head_seen};

use crate::fault::FileFault;
use basin::head::Head;
use numbers::reader::Reader;

/// The number that comes next, which has to lie from `least` to `most`.
pub fn read_ranged(reader: &mut Reader<'_>, least: u64, most: u64) -> Result<u64, FileFault>
    ensures { Reads (λ bs at. ranged_at bs at least most) reader.old reader.new result }
{
    let at = reader.at;
    let value = reader.number()?;
    if least <= value && value <= most {
        Ok(value)
    } else {
        Err(FileFault::Range(at))
    }
}

/// The head that the file begins with, and the place after it.
pub fn read_head(bytes: &[u8]) -> Result<(Head, usize), FileFault>
    ensures { head_seen result ≡ head_at bytes.now }
{
    let mut reader = Reader { bytes, at: 0 };
    let levels = read_ranged(&mut reader, 0, 6)?;
    let width = read_ranged(&mut reader, 1, 1_000)?;
    let loose = read_ranged(&mut reader, 0, 1_000_000)?;
    let head = Head {
        levels: levels as u8,
        width: width as u16,
        loose: loose as u32,
    };
    Ok((head, reader.at))
}
