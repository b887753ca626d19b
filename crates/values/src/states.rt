ghost use Rattle.std.specs.Prelude.{◌≡◌};
ghost use Rattle.values.specs.Numbers.{transport_number, processing_number, reading_number, transport_of, processing_of, reading_of, Yields};

use crate::bounds::OutOfBounds;

// Where a wafer stands on its way.
#[derive(Clone, Copy, Debug, PartialEq, Eq)]
pub enum Transport {
    AtSource = 0,
    AtWork = 1,
    AtDestination = 2,
}

// What has been done to a wafer.
#[derive(Clone, Copy, Debug, PartialEq, Eq)]
pub enum Processing {
    NeedsProcessing = 0,
    InProcess = 1,
    Processed = 2,
    Aborted = 3,
    Stopped = 4,
    Rejected = 5,
    Lost = 6,
    Skipped = 7,
    NoneYet = 15,
}

// How far the reading of a wafer's ID has come.
#[derive(Clone, Copy, Debug, PartialEq, Eq)]
pub enum Reading {
    NotUsed = 0,
    NotConfirmed = 1,
    WaitingForHost = 2,
    Confirmed = 3,
    ConfirmationFailed = 4,
}

impl From<Transport> for u8 {
    ghost from_gives = { λ x r. r ≡ transport_number x };

    fn from(value: Transport) -> u8 {
        value as u8
    }
}

impl TryFrom<u8> for Transport {
    type Error = OutOfBounds;

    ghost try_from_gives = { λ n r. Yields transport_number (transport_of n) r };

    fn try_from(number: u8) -> Result<Transport, OutOfBounds> {
        match number {
            0 => Ok(Transport::AtSource),
            1 => Ok(Transport::AtWork),
            2 => Ok(Transport::AtDestination),
            _ => Err(OutOfBounds),
        }
    }
}

impl From<Processing> for u8 {
    ghost from_gives = { λ x r. r ≡ processing_number x };

    fn from(value: Processing) -> u8 {
        value as u8
    }
}

impl TryFrom<u8> for Processing {
    type Error = OutOfBounds;

    ghost try_from_gives = { λ n r. Yields processing_number (processing_of n) r };

    fn try_from(number: u8) -> Result<Processing, OutOfBounds> {
        match number {
            0 => Ok(Processing::NeedsProcessing),
            1 => Ok(Processing::InProcess),
            2 => Ok(Processing::Processed),
            3 => Ok(Processing::Aborted),
            4 => Ok(Processing::Stopped),
            5 => Ok(Processing::Rejected),
            6 => Ok(Processing::Lost),
            7 => Ok(Processing::Skipped),
            15 => Ok(Processing::NoneYet),
            _ => Err(OutOfBounds),
        }
    }
}

impl From<Reading> for u8 {
    ghost from_gives = { λ x r. r ≡ reading_number x };

    fn from(value: Reading) -> u8 {
        value as u8
    }
}

impl TryFrom<u8> for Reading {
    type Error = OutOfBounds;

    ghost try_from_gives = { λ n r. Yields reading_number (reading_of n) r };

    fn try_from(number: u8) -> Result<Reading, OutOfBounds> {
        match number {
            0 => Ok(Reading::NotUsed),
            1 => Ok(Reading::NotConfirmed),
            2 => Ok(Reading::WaitingForHost),
            3 => Ok(Reading::Confirmed),
            4 => Ok(Reading::ConfirmationFailed),
            _ => Err(OutOfBounds),
        }
    }
}
