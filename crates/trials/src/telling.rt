ghost use Rattle.std.specs.Prelude.{◌≡◌, ◌≤◌, [], ◌∷◌, ◌++◌};
ghost use Rattle.std.specs.Option.{option_map};
ghost use Rattle.reports.specs.Fields.{shown};
ghost use Rattle.sinks.specs.Putting.{Writes};
ghost use Rattle.trials.specs.Told.{told_since};

use reports::report::Report;
use sinks::sink::{Full, Sink};

// A sink that passes each report on to one who remembers the last.
#[derive(Drop)]
pub struct Telling<S> {
    pub sink: S,
    pub last: Option<Report>,
}

impl<S: Sink> Sink for Telling<S> {
    ghost list = { λ s. S.Sink.list s.sink };

    ghost room = { λ s. S.Sink.room s.sink };

    ghost since = { λ e s. told_since (S.Sink.list e.sink) (option_map shown e.last) (S.Sink.list s.sink) (option_map shown s.last) };

    fn free(&self) -> usize {
        self.sink.free()
    }

    fn put(&mut self, report: Report) -> Result<(), Full> {
        self.sink.put(report)?;
        self.last = Some(report);
        Ok(())
    }
}

// Code that knows only a sink.
pub fn twice<S: Sink>(sink: &mut S, report: Report)
    ensures since { (earlier : S) → S.since earlier sink.old → S.since earlier sink.new }
    ensures both { 2 ≤ S.room sink.old → Writes S.list S.room S.since (shown report ∷ shown report ∷ []) sink.old sink.new }
    ensures full { S.room sink.old ≡ 0 → (S.list sink.new ≡ S.list sink.old) × (S.room sink.new ≡ 0) }
{
    let _ = sink.put(report);
    let _ = sink.put(report);
}

// Through that code, what the other one remembers is what the list says.
pub fn passes_on<S: Sink>(telling: &mut Telling<S>, report: Report)
    ensures told { told_since (S.list telling.old.sink) (option_map shown telling.old.last) (S.list telling.new.sink) (option_map shown telling.new.last) }
    ensures list { 2 ≤ S.room telling.old.sink → S.list telling.new.sink ≡ S.list telling.old.sink ++ shown report ∷ shown report ∷ [] }
    ensures last { 2 ≤ S.room telling.old.sink → option_map shown telling.new.last ≡ Some (shown report) }
{
    // This shows `twice` at one kind of sink: a call of it alone is no plainer.
    twice(telling, report);
}
