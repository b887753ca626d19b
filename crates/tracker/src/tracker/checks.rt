ghost use Rattle.std.specs.Prelude.{◌≡◌, not, ◌&&◌, [], ◌∷◌, Some, is_some};
ghost use Rattle.model.specs.Calls.{check, granted, timely};
ghost use Rattle.texts.specs.Form.{named};
ghost use Rattle.texts.specs.Meaning.{called};
ghost use Rattle.values.specs.Values.{moment};
ghost use Rattle.wafers.specs.Held.{held};
ghost use Rattle.tracker.specs.Tracked.{plan_of, tracked};
ghost use Rattle.tracker.specs.Checked.{Passed, Passes};

use crate::tracker::Tracker;
use cabinet::refusal::Refusal;
use texts::id::Id;
use values::time::Time;
use wafers::wafer::Wafer;

// The ID of the given bytes.
pub(crate) fn id_of(given: &[u8]) -> Result<Id, Refusal>
    ensures { Passed (named given.now) Refusal.Text (λ i. called i ≡ given.now) result }
{
    Id::new(given).ok_or(Refusal::Text)
}

impl<'a> Tracker<'a> {
    // The time, if it is one and not before the latest.
    pub(crate) fn time_of(&self, given: u64) -> Result<Time, Refusal>
        ensures { Passed (timely (tracked self.now) given) Refusal.Time (λ t. moment t ≡ given) result }
    {
        let time = Time::new(given).ok_or(Refusal::Time)?;
        if time < self.latest {
            return Err(Refusal::Time);
        }
        Ok(time)
    }

    pub(crate) fn wafer_of(&self, id: &Id) -> Result<Wafer, Refusal>
        ensures { Passed (is_some ((tracked self.now).contents.wafer (called id.now))) Refusal.NotRegistered (λ w. ((tracked self.now).contents.wafer (called id.now) ≡ Some (held w)) × (called w.id ≡ called id.now)) result }
    {
        self.cabinet.wafer(id).ok_or(Refusal::NotRegistered)
    }

    // Time, ID and wafer of a call on a registered wafer.
    pub(crate) fn known(&self, id: &[u8], time: u64) -> Result<(Wafer, Time), Refusal>
        ensures { Passes (check 3 (timely (tracked self.now) time) ∷ (check 4 (named id.now) ∷ (check 6 (is_some ((tracked self.now).contents.wafer id.now)) ∷ []))) (λ x. ((tracked self.now).contents.wafer id.now ≡ Some (held x.0)) × (called x.0.id ≡ id.now) × (moment x.1 ≡ time)) result }
    {
        let time = self.time_of(time)?;
        let id = id_of(id)?;
        let wafer = self.wafer_of(&id)?;
        Ok((wafer, time))
    }
}
