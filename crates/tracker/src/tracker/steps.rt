ghost use Rattle.std.specs.Prelude.{◌≡◌, ◌+◌, ◌≤◌, [], ◌∷◌, ◌++◌, if◌then◌else◌, Some, None};
ghost use Rattle.model.specs.Reporting.{location_report, substrate_report};
ghost use Rattle.model.specs.Rows.{change as by_change, leave as by_exit, change_number, changed, effect, exit_number};
ghost use Rattle.model.specs.Wafers.{at_time};
ghost use Rattle.texts.specs.Meaning.{called};
ghost use Rattle.transitions.specs.Meant.{change_meant, exit_meant};
ghost use Rattle.values.specs.Values.{moment};
ghost use Rattle.cabinet.specs.Views.{with_contents};
ghost use Rattle.wafers.specs.Held.{held};
ghost use Rattle.sinks.specs.Putting.{Writes};
ghost use Rattle.tracker.specs.Tracked.{tables, tracked};

use crate::tracker::Tracker;
use crate::writing::{tell, write};
use sinks::sink::Sink;
use transitions::change::Change;
use transitions::exit::Exit;
use values::time::Time;
use wafers::telling::occupancy;
use wafers::wafer::Wafer;

impl<'a> Tracker<'a> {
    // The wafer takes a row that changes its states, and this is reported.
    pub(crate) fn take_change<S: Sink>(
        &mut self,
        sink: &mut S,
        wafer: Wafer,
        change: Change,
        time: Time,
    ) -> Wafer
        requires there { (tables self.old).contents.wafer (called wafer.id) ≡ Some (held wafer) }
        requires room { 1 ≤ S.room sink.old }
        ensures tables { tables self.new ≡ with_contents (effect (at_time (moment time)) (called wafer.id) (by_change (change_meant change)) (tables self.old).contents) (tables self.old) }
        ensures latest { self.new.latest ≡ self.old.latest }
        ensures wrote { Writes S.list S.room S.since (substrate_report (change_number (change_meant change)) (at_time (moment time)) (called wafer.id) (changed (change_meant change) (held wafer)) ∷ []) sink.old sink.new }
        ensures wafer { held result ≡ changed (change_meant change) (held wafer) }
        ensures id { result.id ≡ wafer.id }
    {
        let changed = change.made(wafer);
        self.cabinet.store(changed);
        write(sink, changed.report(change.transition(), time));
        changed
    }

    // The wafer goes; its place is vacant, and both are reported. The flag is the place's switch, which is on whether
    // or not there is something to report: an Option of the report is no plainer.
    pub(crate) fn take_exit<S: Sink>(
        &mut self,
        sink: &mut S,
        quiet: bool,
        wafer: Wafer,
        exit: Exit,
        time: Time,
    )
        requires there { (tables self.old).contents.wafer (called wafer.id) ≡ Some (held wafer) }
        requires room { (if quiet then 0 else 1) + 1 ≤ S.room sink.old }
        ensures tables { tables self.new ≡ with_contents (effect (at_time (moment time)) (called wafer.id) (by_exit (exit_meant exit)) (tables self.old).contents) (tables self.old) }
        ensures latest { self.new.latest ≡ self.old.latest }
        ensures wrote { Writes S.list S.room S.since ((if quiet then [] else location_report (at_time (moment time)) (held wafer).place None ∷ []) ++ (substrate_report (exit_number (exit_meant exit)) (at_time (moment time)) (called wafer.id) (held wafer) ∷ [])) sink.old sink.new }
    {
        self.cabinet.remove(&wafer.id);
        self.cabinet.vacate(wafer.place);
        tell(sink, quiet, occupancy(wafer.place, None, time));
        write(sink, wafer.report(exit.transition(), time));
    }
}
