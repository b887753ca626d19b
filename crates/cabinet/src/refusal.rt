ghost use Rattle.std.specs.Prelude.{◌≡◌};
ghost use Rattle.cabinet.specs.Refusals.{refusal_number};

// Why a making or a call of the tracker is refused.
#[derive(Clone, Copy, Debug, PartialEq, Eq)]
pub enum Refusal {
    PlaceList = 1,
    RowCount = 2,
    Time = 3,
    Text = 4,
    NotListed = 5,
    NotRegistered = 6,
    Registered = 7,
    NotFree = 8,
    GrantOpen = 9,
    NoRowFits = 10,
    HistoryFull = 11,
    NoWaferRow = 12,
    NotPromised = 13,
    NoRoom = 14,
}

impl From<Refusal> for u8 {
    ghost from_gives = { λ x r. r ≡ refusal_number x };

    fn from(value: Refusal) -> u8 {
        value as u8
    }
}
