ghost use Rattle.std.specs.Prelude.{◌≡◌};
ghost use Rattle.model.specs.Wafers.{ended as stay_ended, opened as stay_opened};
ghost use Rattle.wafers.specs.Stays.{stay};
ghost use Rattle.values.specs.Values.{coded, moment};

use values::code::Code;
use values::time::Time;

// A wafer's stay at a place; it has no time out before the wafer leaves.
#[derive(Clone, Copy)]
pub struct Entry {
    pub place: Code,
    pub time_in: Time,
    pub time_out: Option<Time>,
}

impl Entry {
    pub(crate) fn opened(place: Code, time: Time) -> Entry
        ensures { stay result ≡ stay_opened (coded place) (moment time) }
    {
        Entry {
            place,
            time_in: time,
            time_out: None,
        }
    }

    pub(crate) fn ended(self, time: Time) -> Entry
        ensures { stay result ≡ stay_ended (moment time) (stay self) }
    {
        Entry {
            place: self.place,
            time_in: self.time_in,
            time_out: Some(time),
        }
    }
}
