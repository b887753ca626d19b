use reports::raw::{Numbers, Raw};
use reports::report::Report;
use std::test::Fail;
use texts::text::Text;
use values::code::Code;

// A wafer registered at place 101 for destination 201.
pub(crate) const SUBSTRATE: Numbers = Numbers {
    family: 0,
    row: 1,
    transport: 0,
    processing: 15,
    reading: 0,
    spare: 0,
    time: 1000,
    place: 101,
    source: 101,
    destination: 201,
};

// Place 101 became occupied.
pub(crate) const LOCATION: Numbers = Numbers {
    family: 1,
    row: 1,
    transport: 0,
    processing: 0,
    reading: 0,
    spare: 0,
    time: 1000,
    place: 101,
    source: 0,
    destination: 0,
};

pub(crate) fn text(bytes: &[u8]) -> Result<Text, Fail> {
    Text::new(bytes).ok_or_else(|| Fail::new("a text"))
}

pub(crate) fn code(number: u16) -> Result<Code, Fail> {
    Code::new(number).ok_or_else(|| Fail::new("a code"))
}

pub(crate) fn report(numbers: Numbers, id: &[u8]) -> Result<Report, Fail> {
    let raw = Raw {
        numbers,
        id,
        acquired: b"",
    };
    Report::make(&raw).map_err(|_| Fail::new("a report within its bounds"))
}
