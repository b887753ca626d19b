ghost use Rattle.std.specs.Prelude.{◌≡◌, None};
ghost use Rattle.std.specs.Option.{option_map};
ghost use Rattle.std.specs.Str.{bytes_eq};
ghost use Rattle.model.specs.Calls.{promised_to};
ghost use Rattle.rows.specs.Kinds.{kind_number};
ghost use Rattle.wafers.specs.Spots.{listed_as, occupant_of, promise_of, spot_of};
ghost use Rattle.texts.specs.Meaning.{called};
ghost use Rattle.values.specs.Values.{coded};

use rows::kind::Kind;
use table::row::Row;
use texts::id::Id;
use texts::text::Text;
use values::code::Code;

// A place of the cabinet, looked up by its code. The note is what a party keeps beside the occupant.
// One generic type for this and the `Place` of `rows` is no plainer: this one's methods name the model, which stands above `rows`,
// a method stands in its type's crate, and each has tests and edits of its own.
#[derive(Clone, Copy)]
pub struct Place<N> {
    pub code: Code,
    pub kind: Kind,
    pub occupant: Option<Id>,
    pub note: N,
}

// The wafer that is to come to a place.
#[derive(Clone, Copy)]
pub struct Promise {
    pub wafer: Id,
}

impl Promise {
    // Whether it is to the wafer with the given ID; an ID that is not formed as one has no promise.
    pub fn is_to(&self, id: &[u8]) -> bool
        ensures { result ≡ bytes_eq (called self.now.wafer) id.now }
    {
        self.wafer.text().as_str().as_bytes() == id
    }
}

impl<N: Copy> Row for Place<N> {
    type Key = u16;

    ghost named = { λ p. p.code.number };

    fn key(&self) -> u16 {
        self.code.number()
    }
}

impl<N: Copy> Place<N> {
    // A place without occupant.
    pub fn listed(code: Code, kind: Kind, note: N) -> Place<N>
        ensures spot { spot_of result ≡ listed_as (coded code) (kind_number kind) }
        ensures occupant { occupant_of result ≡ None }
        ensures note { result.note ≡ note }
    {
        Place {
            code,
            kind,
            occupant: None,
            note,
        }
    }

    pub fn with_occupant(self, occupant: Option<Id>) -> Place<N>
        ensures spot { spot_of result ≡ spot_of self }
        ensures occupant { occupant_of result ≡ option_map called occupant }
        ensures note { result.note ≡ self.note }
    {
        Place { occupant, ..self }
    }

    pub fn with_note(self, note: N) -> Place<N>
        ensures spot { spot_of result ≡ spot_of self }
        ensures occupant { occupant_of result ≡ occupant_of self }
        ensures note { result.note ≡ note }
    {
        Place { note, ..self }
    }
}

impl Place<Option<Promise>> {
    // Whether the place is promised to the wafer with the given ID.
    pub fn is_promised_to(&self, id: &[u8]) -> bool
        ensures { result ≡ promised_to (promise_of self.now) id.now }
    {
        self.note.is_some_and(|promise| promise.is_to(id))
    }
}
