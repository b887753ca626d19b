use crate::draft::Draft;

pub mod reading;

// What a line of words asks for.
#[derive(Drop)]
pub enum Command {
    // Packs the report of these fields.
    Pack(Draft),
    // Reads the reports of these bytes.
    Unpack(Vec<u8>),
}
