ghost use Rattle.std.specs.Prelude.{◌≡◌};
ghost use Rattle.rows.specs.Kinds.{kind_number, kind_of};
ghost use Rattle.values.specs.Numbers.{Yields};

use values::bounds::OutOfBounds;

// What a place is.
#[derive(Clone, Copy, Debug, PartialEq, Eq)]
pub enum Kind {
    Slot = 0,
    Station = 1,
}

impl From<Kind> for u8 {
    ghost from_gives = { λ x r. r ≡ kind_number x };

    fn from(value: Kind) -> u8 {
        value as u8
    }
}

impl TryFrom<u8> for Kind {
    type Error = OutOfBounds;

    ghost try_from_gives = { λ n r. Yields kind_number (kind_of n) r };

    fn try_from(number: u8) -> Result<Kind, OutOfBounds> {
        match number {
            0 => Ok(Kind::Slot),
            1 => Ok(Kind::Station),
            _ => Err(OutOfBounds),
        }
    }
}
