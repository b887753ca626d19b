ghost use Rattle.std.specs.Prelude.{◌≡◌, Bool, ◌&&◌, ◌||◌, ◌==◌, nat_le};
ghost use Rattle.model.specs.Places.{Sites};
ghost use Rattle.model.specs.Rows.{change_number, may_change, changed, reads_as};
ghost use Rattle.wafers.specs.Held.{held};
ghost use Rattle.texts.specs.Meaning.{called, spelled};
ghost use Rattle.transitions.specs.Meant.{change_meant};
ghost use Rattle.transitions.specs.Stands.{Stands};
ghost use Rattle.values.specs.Numbers.{processing_number, reading_number, transition_number};

use crate::standing::Standing;
use crate::states::is_steady;
use texts::text::Text;
use values::states::{Processing, Reading, Transport};
use values::transition::Transition;
use wafers::wafer::Wafer;

// The rows that change states alone, with what each is given.
#[derive(Clone, Copy, PartialEq, Eq)]
pub enum Change {
    Correct,
    Need(Reading),
    Start,
    End(Processing),
    Return,
    GiveUp(Processing),
    ReadSame(Text),
    ReadFailed(Text),
    ReadOther(Text),
    Proceed,
    Cancel,
}

impl Change {
    pub fn transition(self) -> Transition
        ensures { transition_number result ≡ change_number (change_meant self) }
    {
        match self {
            Change::Correct => Transition::Corrected,
            Change::Need(_) => Transition::NeedsProcessing,
            Change::Start => Transition::Started,
            Change::End(_) => Transition::Ended,
            Change::Return => Transition::Returned,
            Change::GiveUp(_) => Transition::GivenUp,
            Change::ReadSame(_) => Transition::ReadSame,
            Change::ReadFailed(_) => Transition::ReadFailed,
            Change::ReadOther(_) => Transition::ReadOther,
            Change::Proceed => Transition::Proceeded,
            Change::Cancel => Transition::Cancelled,
        }
    }

    // The wafer after the row.
    pub fn made(self, wafer: Wafer) -> Wafer
        ensures value { held result ≡ changed (change_meant self) (held wafer) }
        ensures id { result.id ≡ wafer.id }
    {
        match self {
            Change::Correct => wafer.with_transport(Transport::AtSource),
            Change::Need(reading) => wafer
                .with_reading(reading, wafer.acquired)
                .with_processing(Processing::NeedsProcessing),
            Change::Start => wafer.with_processing(Processing::InProcess),
            Change::End(state) | Change::GiveUp(state) => wafer.with_processing(state),
            Change::Return => wafer.with_processing(Processing::NeedsProcessing),
            Change::ReadSame(acquired) => wafer.with_reading(Reading::Confirmed, acquired),
            Change::ReadFailed(acquired) | Change::ReadOther(acquired) => wafer.with_reading(
                Reading::WaitingForHost,
                acquired,
            ),
            Change::Proceed => wafer.with_reading(Reading::Confirmed, wafer.acquired),
            Change::Cancel => wafer.with_reading(Reading::ConfirmationFailed, wafer.acquired),
        }
    }

    // Whether the wafer can take the row.
    pub fn is_open(self, standing: &Standing) -> bool
        ensures { (at : Sites) → Stands at standing.now → result ≡ may_change at (called standing.now.wafer.id) (change_meant self) (held standing.now.wafer) }
    {
        let wafer = &standing.wafer;
        match self {
            Change::Correct => wafer.transport == Transport::AtDestination
                && wafer.place == wafer.source
                && is_steady(wafer.processing),
            Change::Need(reading) => wafer.processing == Processing::NoneYet
                && is_first_reading(reading),
            Change::Start => wafer.processing == Processing::NeedsProcessing
                && standing.at_station
                && is_settled(wafer.reading),
            Change::End(state) => wafer.processing == Processing::InProcess && is_end(state),
            Change::Return => wafer.processing == Processing::InProcess,
            Change::GiveUp(state) => wafer.processing == Processing::NeedsProcessing
                && is_loss(state),
            Change::ReadSame(acquired) => is_unread(wafer)
                && reads_as(&acquired, wafer)
                && is_steady(wafer.processing),
            Change::ReadFailed(acquired) => is_unread(wafer)
                && acquired.is_empty()
                && is_steady(wafer.processing),
            Change::ReadOther(acquired) => is_unread(wafer)
                && (!reads_as(&acquired, wafer) && !acquired.is_empty())
                && is_steady(wafer.processing),
            Change::Proceed | Change::Cancel => wafer.reading == Reading::WaitingForHost
                && is_steady(wafer.processing),
        }
    }
}

// What row 10 sets: not used, or NOT CONFIRMED.
fn is_first_reading(reading: Reading) -> bool
    ensures { result ≡ nat_le (reading_number reading) 1 }
{
    matches!(reading, Reading::NotUsed | Reading::NotConfirmed)
}

// The ID is settled, or not to be read.
fn is_settled(reading: Reading) -> bool
    ensures { result ≡ (reading_number reading == 0 || reading_number reading == 3) }
{
    matches!(reading, Reading::NotUsed | Reading::Confirmed)
}

// What row 12 leads to.
fn is_end(state: Processing) -> bool
    ensures { result ≡ (nat_le 2 (processing_number state) && nat_le (processing_number state) 6) }
{
    matches!(
        state,
        Processing::Processed
            | Processing::Aborted
            | Processing::Stopped
            | Processing::Rejected
            | Processing::Lost
    )
}

// What row 14 leads to.
fn is_loss(state: Processing) -> bool
    ensures { result ≡ (nat_le 6 (processing_number state) && nat_le (processing_number state) 7) }
{
    matches!(state, Processing::Lost | Processing::Skipped)
}

fn is_unread(wafer: &Wafer) -> bool
    ensures { result ≡ (reading_number wafer.now.reading == 1) }
{
    wafer.reading == Reading::NotConfirmed
}

// Whether a read ID is the wafer's.
pub fn reads_as(acquired: &Text, wafer: &Wafer) -> bool
    ensures { result ≡ reads_as (spelled acquired.now) (called wafer.now.id) }
{
    *acquired == wafer.id.text()
}
