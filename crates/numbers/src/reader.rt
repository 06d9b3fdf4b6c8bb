// Reading one number after another.
ghost use Rattle.numbers.specs.Laws.{Bytes};

use crate::fault::NumberFault;
use crate::number::{read_number, to_signed};

/// The bytes of a file, and the place where the next number begins. Where a read is refused, the place is any.
#[derive(Clone, Copy)]
pub struct Reader<'a> {
    pub bytes: &'a [u8],
    pub at: usize,
    // What the bytes' type says of them, for proofs that have the reader alone.
    pub ghost fit: { Bytes bytes.now },
}

impl Reader<'_> {
    ghost use Rattle.numbers.specs.Numbers.{number_at, signed_at};
    ghost use Rattle.numbers.specs.Readers.{Reads};

    /// The next number.
    pub fn number(&mut self) -> Result<u64, NumberFault>
        ensures { Reads number_at self.old self.new result }
    {
        let (value, next) = read_number(self.bytes, self.at)?;
        self.at = next;
        Ok(value)
    }

    /// The next signed number.
    pub fn signed(&mut self) -> Result<i64, NumberFault>
        ensures { Reads signed_at self.old self.new result }
    {
        Ok(to_signed(self.number()?))
    }
}

#[cfg(test)]
mod tests {
    use super::*;

    #[test]
    fn numbers_are_read_one_after_another(rt: HostRuntime) {
        let mut reader = Reader {
            bytes: &[5, 0xAC, 0x02],
            at: 0,
        };
        assert!(rt; reader.signed() == Ok(-3) && reader.at == 1, "minus three");
        assert!(rt; reader.number() == Ok(300) && reader.at == 3, "300");
        assert!(rt; reader.number() == Err(NumberFault::Ended(3)), "no more");
    }
}
