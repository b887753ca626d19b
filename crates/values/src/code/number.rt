ghost use Rattle.std.specs.Prelude.{◌≡◌};
ghost use Rattle.std.specs.Option.{option_map};
ghost use Rattle.values.specs.Numbers.{Yields};
ghost use Rattle.values.specs.Values.{coded, code_of};

use crate::bounds::OutOfBounds;
use crate::code::Code;

impl Code {
    pub fn new(number: u16) -> Option<Code>
        ensures { option_map coded result ≡ code_of number }
    {
        if number == 0 {
            return None;
        }
        Some(Code { number })
    }

    pub fn number(self) -> u16
        ensures { result ≡ coded self }
    {
        self.number
    }
}

impl TryFrom<u16> for Code {
    type Error = OutOfBounds;

    ghost try_from_gives = { λ n r. Yields coded (code_of n) r };

    fn try_from(number: u16) -> Result<Code, OutOfBounds> {
        Code::new(number).ok_or(OutOfBounds)
    }
}
