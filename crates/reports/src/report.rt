use texts::id::Id;
use texts::text::Text;
use values::code::Code;
use values::states::{Processing, Reading, Transport};
use values::time::Time;
use values::transition::Transition;

// A wafer took a row of the table of transitions.
#[derive(Clone, Copy, Debug, PartialEq, Eq)]
pub struct Substrate {
    pub transition: Transition,
    pub time: Time,
    pub id: Id,
    pub place: Code,
    pub source: Code,
    pub destination: Code,
    pub transport: Transport,
    pub processing: Processing,
    pub reading: Reading,
    pub acquired: Text,
}

// A place became occupied, by the wafer named, or unoccupied.
#[derive(Clone, Copy, Debug, PartialEq, Eq)]
pub struct Location {
    pub time: Time,
    pub place: Code,
    pub occupant: Option<Id>,
}

#[derive(Clone, Copy, Debug, PartialEq, Eq)]
pub enum Report {
    OfSubstrate(Substrate),
    OfLocation(Location),
}
