ghost use Rattle.std.specs.Prelude.{◌≡◌};
ghost use Rattle.values.specs.Numbers.{transition_number, transition_of, Yields};

use crate::bounds::OutOfBounds;

// The rows of the table of transitions, each by what it says of the wafer.
#[derive(Clone, Copy, Debug, PartialEq, Eq)]
pub enum Transition {
    Registered = 1,
    LeftSource = 2,
    BackAtSource = 3,
    MovedAtWork = 4,
    ReachedDestination = 5,
    LeftDestination = 6,
    Unloaded = 7,
    Corrected = 8,
    Removed = 9,
    NeedsProcessing = 10,
    Started = 11,
    Ended = 12,
    Returned = 13,
    GivenUp = 14,
    ReadSame = 17,
    ReadFailed = 18,
    ReadOther = 19,
    Proceeded = 20,
    Cancelled = 21,
}

impl From<Transition> for u8 {
    ghost from_gives = { λ x r. r ≡ transition_number x };

    fn from(value: Transition) -> u8 {
        value as u8
    }
}

impl TryFrom<u8> for Transition {
    type Error = OutOfBounds;

    ghost try_from_gives = { λ n r. Yields transition_number (transition_of n) r };

    fn try_from(number: u8) -> Result<Transition, OutOfBounds> {
        match number {
            1 => Ok(Transition::Registered),
            2 => Ok(Transition::LeftSource),
            3 => Ok(Transition::BackAtSource),
            4 => Ok(Transition::MovedAtWork),
            5 => Ok(Transition::ReachedDestination),
            6 => Ok(Transition::LeftDestination),
            7 => Ok(Transition::Unloaded),
            8 => Ok(Transition::Corrected),
            9 => Ok(Transition::Removed),
            10 => Ok(Transition::NeedsProcessing),
            11 => Ok(Transition::Started),
            12 => Ok(Transition::Ended),
            13 => Ok(Transition::Returned),
            14 => Ok(Transition::GivenUp),
            17 => Ok(Transition::ReadSame),
            18 => Ok(Transition::ReadFailed),
            19 => Ok(Transition::ReadOther),
            20 => Ok(Transition::Proceeded),
            21 => Ok(Transition::Cancelled),
            _ => Err(OutOfBounds),
        }
    }
}
