ghost use Rattle.std.specs.Prelude.{◌^◌, ◌<◌};

pub mod millis;

// A time in whole milliseconds, of 40 bits.
#[derive(Clone, Copy, Debug, PartialEq, Eq, PartialOrd, Ord)]
pub struct Time {
    millis: u64,
    ghost bounded: { millis < 2 ^ 40 },
}
