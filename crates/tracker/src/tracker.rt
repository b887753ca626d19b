use cabinet::cabinet::Cabinet;
use values::time::Time;
use wafers::place::Promise;

pub(crate) mod checks;
mod steps;

// The record of the wafers in a cabinet. A place notes the wafer that is promised to it.
#[derive(Drop)]
pub struct Tracker<'a> {
    cabinet: Cabinet<'a, Option<Promise>>,
    latest: Time,
}
