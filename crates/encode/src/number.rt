// Numbers in groups of seven bits, measured.
ghost use Rattle.std.specs.Prelude.{◌≡◌, ◌^◌, ◌<◌, ◌≤◌, length};
ghost use Rattle.numbers.specs.Numbers.{number, coded};

use numbers::number::MORE;

/// The number that stands for a signed one.
// No `From`: both are plain numbers, and a type for the code would be unwrapped at each of its uses.
pub fn to_coded(signed: i64) -> u64
    ensures { result ≡ coded signed }
{
    if signed >= 0 {
        signed as u64 * 2
    } else {
        (-1 - signed) as u64 * 2 + 1
    }
}

/// The bytes that a number takes.
pub fn number_length(value: u64) -> usize
    requires { value < 2 ^ 42 }
    ensures value { result ≡ length (number value) }
    ensures most { result ≤ 6 }
{
    let mut rest = value;
    let mut length = 1;
    // What is left of the number goes down here, and no index goes up.
    while rest >= MORE {
        rest /= MORE;
        length += 1;
    }
    length
}
