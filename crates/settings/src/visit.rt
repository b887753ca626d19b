ghost use Rattle.std.specs.Prelude.{◌≡◌, true};
ghost use Rattle.model.specs.Switches.{silenced_at};
ghost use Rattle.settings.specs.Meaning.{switches};

use crate::settings::Settings;

// A maintenance visit: one place is silenced as long as it lasts. The settings can be read meanwhile,
// and neither switched nor lent to another visit.
pub struct Visit<'a> {
    settings: &'a mut Settings,
    position: usize,
    before: bool,
}

impl Drop for Visit<'_> {
    // The place's switch is again as it was before the visit.
    fn drop(self)
        ensures { switches self.exit.0.now ≡ silenced_at self.entry.position self.entry.before (switches self.entry.settings.now) }
    {
        let Visit {
            settings,
            position,
            before,
        } = self;
        let _ = settings.silence(position, before);
    }
}

impl<'a> Visit<'a> {
    // Silences the place at a position. Outside the list nothing is silenced. `restores` says that the
    // end of the visit leaves the switches as they were.
    pub fn begin(settings: &'a mut Settings, position: usize) -> Visit<'a>
        ensures lender { result.settings.ghost_name ≡ settings.entry.ghost_name }
        ensures position { result.position ≡ position }
        ensures before { result.before ≡ (switches settings.old).silent position }
        ensures during { switches result.settings.now ≡ silenced_at position true (switches settings.old) }
        ensures restores { silenced_at position result.before (switches result.settings.now) ≡ switches settings.old }
    {
        let before = settings.is_silenced(position);
        let _ = settings.silence(position, true);
        Visit {
            settings,
            position,
            before,
        }
    }

    pub fn settings(&self) -> &Settings
        ensures { result.now ≡ self.now.settings.now }
    {
        &*self.settings
    }
}
