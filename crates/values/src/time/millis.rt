ghost use Rattle.std.specs.Prelude.{◌≡◌};
ghost use Rattle.std.specs.Option.{option_map};
ghost use Rattle.values.specs.Numbers.{Yields};
ghost use Rattle.values.specs.Values.{moment, time_of};

use crate::bounds::OutOfBounds;
use crate::time::Time;

impl Time {
    // The latest time there is.
    pub const LAST: u64 = 1_099_511_627_775;

    pub fn new(millis: u64) -> Option<Time>
        ensures { option_map moment result ≡ time_of millis }
    {
        if millis > Time::LAST {
            return None;
        }
        Some(Time { millis })
    }

    pub fn millis(self) -> u64
        ensures { result ≡ moment self }
    {
        self.millis
    }
}

impl TryFrom<u64> for Time {
    type Error = OutOfBounds;

    ghost try_from_gives = { λ n r. Yields moment (time_of n) r };

    fn try_from(millis: u64) -> Result<Time, OutOfBounds> {
        Time::new(millis).ok_or(OutOfBounds)
    }
}
