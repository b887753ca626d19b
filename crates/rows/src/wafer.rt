use table::row::Row;
use texts::id::Id;
use texts::text::Text;
use values::code::Code;
use values::states::{Processing, Reading, Transport};

// A registered wafer, looked up by its ID.
// One generic type for this and the `Wafer` of `wafers`, which has a history too, is no plainer: that one's methods name the model,
// which stands above this crate, a method stands in its type's crate, and each has tests and edits of its own.
#[derive(Clone, Copy)]
pub struct Wafer {
    pub id: Id,
    pub place: Code,
    pub source: Code,
    pub destination: Code,
    pub transport: Transport,
    pub processing: Processing,
    pub reading: Reading,
    pub acquired: Text,
}

impl Row for Wafer {
    type Key = Text;

    ghost named = { λ w. w.id.text };

    fn key(&self) -> Text {
        self.id.text()
    }
}
