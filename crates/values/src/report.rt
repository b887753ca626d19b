ghost use Rattle.std.specs.Prelude.{◌≡◌};
ghost use Rattle.values.specs.Numbers.{family_number, occupancy_number, family_of, occupancy_of, Yields};

use crate::bounds::OutOfBounds;

// What a report is about.
#[derive(Clone, Copy, Debug, PartialEq, Eq)]
pub enum Family {
    Substrate = 0,
    Location = 1,
}

// What a place became: the rows of a location report.
#[derive(Clone, Copy, Debug, PartialEq, Eq)]
pub enum Occupancy {
    Occupied = 1,
    Unoccupied = 2,
}

impl From<Family> for u8 {
    ghost from_gives = { λ x r. r ≡ family_number x };

    fn from(value: Family) -> u8 {
        value as u8
    }
}

impl TryFrom<u8> for Family {
    type Error = OutOfBounds;

    ghost try_from_gives = { λ n r. Yields family_number (family_of n) r };

    fn try_from(number: u8) -> Result<Family, OutOfBounds> {
        match number {
            0 => Ok(Family::Substrate),
            1 => Ok(Family::Location),
            _ => Err(OutOfBounds),
        }
    }
}

impl From<Occupancy> for u8 {
    ghost from_gives = { λ x r. r ≡ occupancy_number x };

    fn from(value: Occupancy) -> u8 {
        value as u8
    }
}

impl TryFrom<u8> for Occupancy {
    type Error = OutOfBounds;

    ghost try_from_gives = { λ n r. Yields occupancy_number (occupancy_of n) r };

    fn try_from(number: u8) -> Result<Occupancy, OutOfBounds> {
        match number {
            1 => Ok(Occupancy::Occupied),
            2 => Ok(Occupancy::Unoccupied),
            _ => Err(OutOfBounds),
        }
    }
}
