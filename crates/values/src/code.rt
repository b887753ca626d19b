ghost use Rattle.std.specs.Prelude.{◌≤◌};

pub mod number;

// A place's code, from 1 to 65,535.
#[derive(Clone, Copy, Debug, PartialEq, Eq)]
pub struct Code {
    number: u16,
    ghost some: { 1 ≤ number },
    ghost short: { number ≤ 65535 },
}
