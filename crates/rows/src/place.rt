use crate::kind::Kind;
use table::row::Row;
use texts::id::Id;
use values::code::Code;

// A place of the cabinet, looked up by its code.
// One generic type for this and the `Place` of `wafers` is no plainer: that one's methods name the model, which stands above this
// crate, a method stands in its type's crate, and each has tests and edits of its own.
#[derive(Clone, Copy)]
pub struct Place {
    pub code: Code,
    pub kind: Kind,
    pub occupant: Option<Id>,
    pub promise: Option<Id>,
}

impl Row for Place {
    type Key = u16;

    ghost named = { λ p. p.code.number };

    fn key(&self) -> u16 {
        self.code.number()
    }
}
