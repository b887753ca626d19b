ghost use Rattle.std.specs.Prelude.{◌≤◌};

use crate::text::Text;

pub mod naming;

// A wafer's ID: a text of at least one byte.
#[derive(Clone, Copy, Debug, PartialEq, Eq)]
pub struct Id {
    text: Text,
    ghost some: { 1 ≤ text.size },
}
