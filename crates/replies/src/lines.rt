ghost use Rattle.std.specs.Prelude.{Some};
ghost use Rattle.reports.specs.Fields.{shown, substrate_fields, location_fields};
ghost use Rattle.replies.specs.Replies.{codes_line, states_line, substrate_line, location_line, report_line};

use reports::report::{Location, Report, Substrate};
use std::fmt;
use values::report::Occupancy;
use words::texts::TextWord;

// The three codes of a substrate report.
#[derive(Clone, Copy)]
struct Codes<'a>(&'a Substrate);

impl fmt::Display for Codes<'_> {
    ghost output = { λ c. Some (codes_line (substrate_fields c.0.now)) };

    fn fmt<W: fmt::Write>(&self, f: &mut fmt::Formatter<W>) -> fmt::Result {
        let place = self.0.place.number();
        let source = self.0.source.number();
        let destination = self.0.destination.number();
        write!(f, "{place} {source} {destination}")
    }
}

// The three states of a substrate report, and the ID that was read.
#[derive(Clone, Copy)]
struct States<'a>(&'a Substrate);

impl fmt::Display for States<'_> {
    ghost output = { λ s. Some (states_line (substrate_fields s.0.now)) };

    fn fmt<W: fmt::Write>(&self, f: &mut fmt::Formatter<W>) -> fmt::Result {
        let transport = u8::from(self.0.transport);
        let processing = u8::from(self.0.processing);
        let reading = u8::from(self.0.reading);
        let acquired = TextWord(self.0.acquired.as_str().as_bytes());
        write!(f, "{transport} {processing} {reading} {acquired}")
    }
}

#[derive(Clone, Copy)]
struct SubstrateLine<'a>(&'a Substrate);

impl fmt::Display for SubstrateLine<'_> {
    ghost output = { λ s. Some (substrate_line (substrate_fields s.0.now)) };

    fn fmt<W: fmt::Write>(&self, f: &mut fmt::Formatter<W>) -> fmt::Result {
        let row = u8::from(self.0.transition);
        let time = self.0.time.millis();
        let id = self.0.id.text();
        let id = TextWord(id.as_str().as_bytes());
        write!(
            f,
            "substrate {row} {time} {id} {} {}",
            Codes(self.0),
            States(self.0)
        )
    }
}

#[derive(Clone, Copy)]
struct LocationLine<'a>(&'a Location);

impl fmt::Display for LocationLine<'_> {
    ghost output = { λ l. Some (location_line (location_fields l.0.now)) };

    fn fmt<W: fmt::Write>(&self, f: &mut fmt::Formatter<W>) -> fmt::Result {
        let time = self.0.time.millis();
        let place = self.0.place.number();
        match self.0.occupant {
            Some(occupant) => {
                let row = u8::from(Occupancy::Occupied);
                let id = occupant.text();
                let id = TextWord(id.as_str().as_bytes());
                write!(f, "location {row} {time} {place} {id}")
            }
            None => {
                let row = u8::from(Occupancy::Unoccupied);
                write!(f, "location {row} {time} {place}")
            }
        }
    }
}

// A report by its words.
#[derive(Clone, Copy)]
pub struct ReportLine<'a>(pub &'a Report);

impl fmt::Display for ReportLine<'_> {
    ghost output = { λ r. Some (report_line (shown r.0.now)) };

    fn fmt<W: fmt::Write>(&self, f: &mut fmt::Formatter<W>) -> fmt::Result {
        match *self.0 {
            Report::OfSubstrate(s) => write!(f, "{}", SubstrateLine(&s)),
            Report::OfLocation(l) => write!(f, "{}", LocationLine(&l)),
        }
    }
}
