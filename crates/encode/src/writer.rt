// Writing one number after another.
ghost use Rattle.std.specs.Prelude.{◌^◌, ◌<◌, [], ◌∷◌};
ghost use Rattle.numbers.specs.Numbers.{number};
ghost use Rattle.encode.specs.Writers.{Room, Puts};

use numbers::number::MORE;

/// An output, and the place where the next byte is written. That there is room is asked at each call, as it depends on what is written.
#[derive(Drop)]
pub struct Writer<'a> {
    pub out: &'a mut [u8],
    pub at: usize,
}

impl Writer<'_> {
    /// Writes a byte.
    fn byte(&mut self, byte: u8)
        requires { Room (byte ∷ []) self.old }
        ensures { Puts (byte ∷ []) self.old self.new }
    {
        self.out[self.at] = byte;
        self.at += 1;
    }

    /// Writes a number.
    pub fn number(&mut self, value: u64)
        requires small { value < 2 ^ 42 }
        requires room { Room (number value) self.old }
        ensures { Puts (number value) self.old self.new }
    {
        let mut rest = value;
        // What is left of the number goes down here, and no index goes up.
        while rest >= MORE {
            self.byte((rest % MORE + MORE) as u8);
            rest /= MORE;
        }
        self.byte(rest as u8);
    }
}
