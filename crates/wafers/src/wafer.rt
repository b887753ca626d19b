ghost use Rattle.std.specs.Prelude.{◌≡◌};
ghost use Rattle.model.specs.Wafers.{at_time, moved_to as wafer_moved, registered as wafer_registered, with_processing, with_reading, with_transport};
ghost use Rattle.wafers.specs.Held.{held};
ghost use Rattle.texts.specs.Meaning.{spelled};
ghost use Rattle.values.specs.Numbers.{processing_number, reading_number, transport_number};
ghost use Rattle.values.specs.Values.{coded, moment};

use crate::history::History;
use table::row::Row;
use texts::id::Id;
use texts::text::Text;
use values::code::Code;
use values::states::{Processing, Reading, Transport};
use values::time::Time;

// A registered wafer, looked up by its ID.
// One generic type for this and the `Wafer` of `rows` is no plainer: this one's methods name the model, which stands above `rows`,
// a method stands in its type's crate, and each has tests and edits of its own.
#[derive(Clone, Copy)]
pub struct Wafer {
    pub id: Id,
    pub place: Code,
    pub source: Code,
    pub destination: Code,
    pub transport: Transport,
    pub processing: Processing,
    pub reading: Reading,
    pub acquired: Text,
    pub history: History,
}

impl Row for Wafer {
    type Key = Text;

    ghost named = { λ w. w.id.text };

    fn key(&self) -> Text {
        self.id.text()
    }
}

impl Wafer {
    // A wafer as it is registered at a place.
    pub fn registered(id: Id, place: Code, destination: Code, time: Time) -> Wafer
        ensures value { held result ≡ wafer_registered (at_time (moment time)) (coded place) (coded destination) }
        ensures id { result.id ≡ id }
    {
        Wafer {
            id,
            place,
            source: place,
            destination,
            transport: Transport::AtSource,
            processing: Processing::NoneYet,
            reading: Reading::NotUsed,
            acquired: Text::empty(),
            history: History::opened(place, time),
        }
    }

    pub fn with_transport(self, transport: Transport) -> Wafer
        ensures value { held result ≡ with_transport (transport_number transport) (held self) }
        ensures id { result.id ≡ self.id }
    {
        Wafer { transport, ..self }
    }

    pub fn with_processing(self, processing: Processing) -> Wafer
        ensures value { held result ≡ with_processing (processing_number processing) (held self) }
        ensures id { result.id ≡ self.id }
    {
        Wafer { processing, ..self }
    }

    pub fn with_reading(self, reading: Reading, acquired: Text) -> Wafer
        ensures value { held result ≡ with_reading (reading_number reading) (spelled acquired) (held self) }
        ensures id { result.id ≡ self.id }
    {
        Wafer {
            reading,
            acquired,
            ..self
        }
    }

    // The wafer at another place, with a transport state; its history goes on.
    pub fn moved_to(self, transport: Transport, target: Code, time: Time) -> Wafer
        ensures value { held result ≡ wafer_moved (at_time (moment time)) (transport_number transport) (coded target) (held self) }
        ensures id { result.id ≡ self.id }
    {
        Wafer {
            place: target,
            transport,
            history: self.history.moved_on(target, time),
            ..self
        }
    }
}
