ghost use Rattle.std.specs.Prelude.{◌≡◌};
ghost use Rattle.values.specs.Numbers.{field_number};

pub mod name;

// The twelve fields of a report, in the order of the packed layout.
#[derive(Clone, Copy, Debug, PartialEq, Eq)]
pub enum Field {
    Family = 1,
    Row = 2,
    Transport = 3,
    Processing = 4,
    Reading = 5,
    Spare = 6,
    Time = 7,
    Place = 8,
    Source = 9,
    Destination = 10,
    Id = 11,
    Acquired = 12,
}

impl From<Field> for u8 {
    ghost from_gives = { λ x r. r ≡ field_number x };

    fn from(value: Field) -> u8 {
        value as u8
    }
}
