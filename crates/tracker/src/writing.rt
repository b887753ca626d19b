ghost use Rattle.std.specs.Prelude.{◌≤◌, [], ◌∷◌, if◌then◌else◌};
ghost use Rattle.reports.specs.Fields.{shown};
ghost use Rattle.sinks.specs.Putting.{Writes};

use reports::report::Report;
use sinks::sink::Sink;

// Puts a report for which there is room.
pub(crate) fn write<S: Sink>(sink: &mut S, report: Report)
    requires { 1 ≤ S.room sink.old }
    ensures { Writes S.list S.room S.since (shown report ∷ []) sink.old sink.new }
{
    let _ = sink.put(report);
}

// Puts a location report, unless its place is silenced. The flag is the place's switch, which is on whether or not
// there is something to report: an Option of the report is no plainer.
pub(crate) fn tell<S: Sink>(sink: &mut S, quiet: bool, report: Report)
    requires { (if quiet then 0 else 1) ≤ S.room sink.old }
    ensures { Writes S.list S.room S.since (if quiet then [] else shown report ∷ []) sink.old sink.new }
{
    if !quiet {
        write(sink, report);
    }
}
