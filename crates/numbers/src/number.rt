// Numbers in groups of seven bits, the lowest group first.
ghost use Rattle.std.specs.Prelude.{◌≡◌};
ghost use Rattle.numbers.specs.Numbers.{number_at, signed};
ghost use Rattle.numbers.specs.Laws.{WrittenIsRead, ReadWasWritten, SignedIsCoded};

use crate::fault::NumberFault;

/// The most groups that a number has.
const GROUPS: usize = 6;

/// What a byte adds to its group when another group follows, and how many times what the group before it weighs a group weighs.
pub const MORE: u64 = 128;

/// The number that begins at `at`, and the place after it.
// Of bytes and a place, as its definition is: a reader's methods stand on it.
pub fn read_number(bytes: &[u8], at: usize) -> Result<(u64, usize), NumberFault>
    ensures { result ≡ number_at bytes.now at }
{
    let rest = bytes.get(at..).unwrap_or(&[]);
    let groups = &rest[..rest.len().min(GROUPS)];
    let mut value: u64 = 0;
    let mut unit: u64 = 1;
    for (k, byte) in groups.iter().enumerate() {
        let byte = u64::from(*byte);
        if byte < MORE {
            if byte == 0 && k > 0 {
                return Err(NumberFault::Malformed(at));
            }
            return Ok((value + unit * byte, at + k + 1));
        }
        value += unit * (byte - MORE);
        unit *= MORE;
    }
    if groups.len() < GROUPS {
        return Err(NumberFault::Ended(at));
    }
    Err(NumberFault::Malformed(at))
}

/// The signed number that a number of the file stands for: even ones for 0, 1, 2 .., odd ones for -1, -2 ..
// No `From`: both are plain numbers, and a type for the code would be unwrapped at its one use.
pub fn to_signed(coded: u64) -> i64
    ensures { result ≡ signed coded }
{
    let half = (coded / 2) as i64;
    if coded % 2 == 0 { half } else { -1 - half }
}

/// Numbers have one form: what is written is read back, what is read was written so, and signed numbers stand for one another's codes.
pub fn numbers_have_one_form()
    ensures written { WrittenIsRead }
    ensures read { ReadWasWritten }
    ensures signed { SignedIsCoded }
{}

#[cfg(test)]
mod tests {
    use super::*;

    // Whether the bytes begin with this number and hold nothing else.
    fn is_number(bytes: &[u8], value: u64) -> bool {
        read_number(bytes, 0) == Ok((value, bytes.len()))
    }

    #[test]
    fn numbers_are_read_in_one_form(rt: HostRuntime) {
        assert!(rt; is_number(&[0xAC, 0x02], 300), "300");
        assert!(rt;
            is_number(&[255, 255, 255, 255, 255, 127], 4_398_046_511_103),
            "the largest"
        );
        assert!(rt;
            read_number(&[255; 7], 0) == Err(NumberFault::Malformed(0)),
            "too long"
        );
        assert!(rt;
            read_number(&[0x80, 0], 0) == Err(NumberFault::Malformed(0)),
            "not shortest"
        );
    }
}
