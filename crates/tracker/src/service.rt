ghost use Rattle.std.specs.Prelude.{◌≡◌, ◌&&◌, IfSome, if◌then◌else◌, Some, None, nat_eq};
ghost use Rattle.std.specs.Option.{option_map};
ghost use Rattle.model.specs.Calls.{well_read, needs_no_grant, reading_row};
ghost use Rattle.model.specs.Rows.{row12, row14};
ghost use Rattle.model.specs.Steps.{can_all};
ghost use Rattle.model.specs.Wafers.{Times};
ghost use Rattle.model.specs.Places.{Contents, Sites};
ghost use Rattle.wafers.specs.Held.{held};
ghost use Rattle.texts.specs.Meaning.{called, spelled};
ghost use Rattle.transitions.specs.Meant.{change_meant, exit_meant};
ghost use Rattle.transitions.specs.Stands.{Stands};
ghost use Rattle.tracker.specs.Checked.{Passed};
ghost use Rattle.tracker.specs.Served.{Planned, ended_by, free_to_go, read_text, service_meant, serving_steps, went};

use crate::tracker::checks::id_of;
use cabinet::refusal::Refusal;
use texts::text::Text;
use transitions::change::{Change, reads_as};
use transitions::exit::Exit;
use transitions::standing::Standing;
use values::states::Processing;
use wafers::wafer::Wafer;

// A call on a registered wafer.
#[derive(Clone, Copy, PartialEq, Eq)]
pub enum Service<'a> {
    Start,
    // A number and no state: an outcome that end does not take is refused after the time, the ID and the registration,
    // so a kind that is tested before the call is no plainer.
    End(u8),
    Skip,
    Read(&'a [u8]),
    ReadFailed,
    Proceed,
    Cancel,
    Unload,
    Correct,
    Missing,
}

// The rows that a service takes, in order.
#[derive(Clone, Copy, Default)]
pub struct Serving {
    pub first: Option<Change>,
    pub second: Option<Change>,
    pub exit: Option<Exit>,
}

// One change, and nothing after it.
impl From<Change> for Serving {
    ghost from_gives = { λ change r. r ≡ record { first = Some change; second = None; exit = None } };

    fn from(change: Change) -> Serving {
        Serving {
            first: Some(change),
            ..Serving::default()
        }
    }
}

// The row that ends the work with an outcome, if it is one that end takes.
fn ending(outcome: u8) -> Option<Change>
    ensures { option_map change_meant result ≡ ended_by outcome }
{
    match Processing::try_from(outcome).ok()? {
        Processing::NeedsProcessing => Some(Change::Return),
        state @ (Processing::Processed
        | Processing::Aborted
        | Processing::Stopped
        | Processing::Rejected) => Some(Change::End(state)),
        _ => None,
    }
}

impl<'a> Service<'a> {
    // The acquired ID of a read; empty for the other services.
    pub(crate) fn acquired(self) -> Result<Text, Refusal>
        ensures { Passed (well_read (service_meant self.entry)) Refusal.Text (λ a. spelled a ≡ read_text (service_meant self.entry)) result }
    {
        match self {
            Service::Read(given) => Ok(id_of(given)?.text()),
            _ => Ok(Text::empty()),
        }
    }

    // Whether an open grant for the wafer stands in the way.
    pub(crate) fn wants_no_grant(self) -> bool
        ensures { result ≡ needs_no_grant (service_meant self.entry) }
    {
        matches!(
            self,
            Service::Start | Service::Unload | Service::Correct | Service::Missing
        )
    }
}

// The wafer after a change, if the change is open to it; it stands where it stood.
pub(crate) fn after(change: Option<Change>, standing: Standing) -> Option<Standing>
    ensures value { (at : Sites) → Stands at standing → option_map (λ s. held s.wafer) result ≡ went at (called standing.wafer.id) (held standing.wafer) (option_map change_meant change) }
    ensures id { IfSome result (λ s. s.wafer.id ≡ standing.wafer.id) }
    ensures stands { (at : Sites) → Stands at standing → IfSome result (Stands at) }
{
    let Some(change) = change else {
        return Some(standing);
    };
    change.is_open(&standing).then(|| Standing {
        wafer: change.made(standing.wafer),
        ..standing
    })
}

// Whether the exit, where there is one, is open to the wafer.
pub(crate) fn is_free(exit: Option<Exit>, wafer: &Wafer) -> bool
    ensures { result ≡ free_to_go (held wafer.now) (option_map exit_meant exit) }
{
    exit.is_none_or(|exit| exit.is_open(wafer))
}

// What becomes of a read: the ID is the wafer's, or another.
fn reading(acquired: Text, wafer: &Wafer) -> Change
    ensures { change_meant result ≡ reading_row (called wafer.now.id) (spelled acquired) }
{
    if reads_as(&acquired, wafer) {
        Change::ReadSame(acquired)
    } else {
        Change::ReadOther(acquired)
    }
}

// A cancelled wafer that still needs processing is skipped.
fn skipping(wafer: &Wafer) -> Option<Change>
    ensures { option_map change_meant result ≡ (if nat_eq (held wafer.now).processing 0 then Some (row14 7) else None) }
{
    (wafer.processing == Processing::NeedsProcessing).then_some(Change::GiveUp(Processing::Skipped))
}

// A wafer that is missing becomes LOST, if its work is not complete.
fn losing(wafer: &Wafer) -> Option<Change>
    ensures { option_map change_meant result ≡ (if nat_eq (held wafer.now).processing 0 then Some (row14 6) else (if nat_eq (held wafer.now).processing 1 then Some (row12 6) else None)) }
{
    match wafer.processing {
        Processing::NeedsProcessing => Some(Change::GiveUp(Processing::Lost)),
        Processing::InProcess => Some(Change::End(Processing::Lost)),
        _ => None,
    }
}

impl<'a> Service<'a> {
    // The rows that the service takes; none for an outcome that end does not take.
    pub(crate) fn serving(self, acquired: Text, wafer: &Wafer) -> Option<Serving>
        requires { spelled acquired ≡ read_text (service_meant self) }
        ensures { Planned (service_meant self.entry) (called wafer.now.id) (held wafer.now) result }
    {
        let serving = match self {
            Service::Start => Serving::from(Change::Start),
            Service::End(outcome) => Serving::from(ending(outcome)?),
            Service::Skip => Serving::from(Change::GiveUp(Processing::Skipped)),
            Service::Read(_) => Serving::from(reading(acquired, wafer)),
            Service::ReadFailed => Serving::from(Change::ReadFailed(acquired)),
            Service::Proceed => Serving::from(Change::Proceed),
            Service::Cancel => Serving {
                second: skipping(wafer),
                ..Serving::from(Change::Cancel)
            },
            Service::Unload => Serving {
                exit: Some(Exit::Unload),
                ..Serving::default()
            },
            Service::Correct => Serving::from(Change::Correct),
            Service::Missing => Serving {
                first: losing(wafer),
                exit: Some(Exit::Remove),
                ..Serving::default()
            },
        };
        Some(serving)
    }
}

impl Serving {
    // Whether the wafer can take all the rows, one after the other.
    pub(crate) fn is_open(&self, standing: Standing) -> bool
        ensures { (at : Sites) (t : Times) (c : Contents) → Stands at standing → c.wafer (called standing.wafer.id) ≡ Some (held standing.wafer) → result ≡ can_all at t c (serving_steps (called standing.wafer.id) (held standing.wafer).place self.now) }
    {
        after(self.first, standing)
            .and_then(|first| after(self.second, first))
            .is_some_and(|second| is_free(self.exit, &second.wafer))
    }
}
