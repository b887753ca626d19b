ghost use Rattle.std.specs.Prelude.{◌≡◌};
ghost use Rattle.std.specs.Option.{option_map};
ghost use Rattle.model.specs.Reporting.{location_report, substrate_report};
ghost use Rattle.model.specs.Wafers.{at_time};
ghost use Rattle.reports.specs.Fields.{shown};
ghost use Rattle.wafers.specs.Held.{held};
ghost use Rattle.texts.specs.Meaning.{called};
ghost use Rattle.values.specs.Numbers.{transition_number};
ghost use Rattle.values.specs.Values.{coded, moment};

use crate::wafer::Wafer;
use reports::report::{Location, Report, Substrate};
use texts::id::Id;
use values::code::Code;
use values::time::Time;
use values::transition::Transition;

impl Wafer {
    // The report that the wafer, as it stands, took a row. Its eight fields are copied one by one: one struct of them in both types is
    // no plainer, since each `..self` update of a wafer and each access in `transitions` and `tracker` would go through it.
    pub fn report(&self, transition: Transition, time: Time) -> Report
        ensures { shown result ≡ substrate_report (transition_number transition) (at_time (moment time)) (called self.now.id) (held self.now) }
    {
        Report::OfSubstrate(Substrate {
            transition,
            time,
            id: self.id,
            place: self.place,
            source: self.source,
            destination: self.destination,
            transport: self.transport,
            processing: self.processing,
            reading: self.reading,
            acquired: self.acquired,
        })
    }
}

// The report that a place became occupied, by the wafer named, or unoccupied.
pub fn occupancy(place: Code, occupant: Option<Id>, time: Time) -> Report
    ensures { shown result ≡ location_report (at_time (moment time)) (coded place) (option_map called occupant) }
{
    Report::OfLocation(Location {
        time,
        place,
        occupant,
    })
}
