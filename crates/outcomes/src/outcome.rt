use layout::cells::STRIDE;
use packed_log::reading::LogRead;
use values::field::Field;

pub mod making;

// What came of a command.
#[derive(Drop)]
pub enum Outcome {
    // A report's bytes.
    Packed([u8; STRIDE]),
    // The first field outside its bounds.
    Refused(Field),
    // The reports of bytes, up to their end or their first fault.
    Unpacked(LogRead),
}
