ghost use Rattle.std.specs.Prelude.{◌≡◌, map, IfOk, IfErr, Some, string_bytes, ◌++◌, codes};
ghost use Rattle.std.specs.Option.{option_map};
ghost use Rattle.packed_log.specs.Shown.{log_shown};
ghost use Rattle.outcomes.specs.Outcomes.{came, reports};
ghost use Rattle.script.specs.Requests.{request_of};
ghost use Rattle.script.specs.Wording.{fault_text};
ghost use Rattle.replies.specs.Replies.{verdict, indented, told, Says, Replies, Explains};
ghost use Rattle.scan.specs.Lines.{line_words};

use crate::lines::ReportLine;
use crate::refusal::{FieldRefusal, LogRefusal};
use outcomes::outcome::Outcome;
use outcomes::outcome::making::answer;
use packed_log::reading::LogRead;
use scan::lines::words;
use script::mistake::Mistake;
use std::alloc::{AllocError, Global};
use std::fmt;
use words::hex::HexDigits;
use words::texts::EchoedWords;

// How many reports were read, or the first fault.
#[derive(Clone, Copy)]
struct Verdict<'a>(&'a LogRead);

impl fmt::Display for Verdict<'_> {
    ghost output = { λ v. Some (verdict (log_shown v.0.now)) };

    fn fmt<W: fmt::Write>(&self, f: &mut fmt::Formatter<W>) -> fmt::Result {
        match self.0.fault {
            Some(fault) => write!(f, "{}", LogRefusal(fault)),
            None => write!(f, "ok {}", self.0.reports.len()),
        }
    }
}

// A log by its verdict and its reports, a line for each.
#[derive(Clone, Copy)]
struct LogLines<'a>(&'a LogRead);

impl fmt::Display for LogLines<'_> {
    ghost output = { λ l. Some (told (reports (log_shown l.0.now))) };

    fn fmt<W: fmt::Write>(&self, f: &mut fmt::Formatter<W>) -> fmt::Result {
        writeln!(f, "  {}", Verdict(self.0))?;
        for report in &self.0.reports {
            writeln!(f, "  {}", ReportLine(report))?;
        }
        Ok(())
    }
}

// An outcome as the lines of its answer.
#[derive(Clone, Copy)]
struct OutcomeLines<'a>(&'a Outcome);

impl fmt::Display for OutcomeLines<'_> {
    ghost output = { λ o. Some (told (came o.0.now)) };

    fn fmt<W: fmt::Write>(&self, f: &mut fmt::Formatter<W>) -> fmt::Result {
        match self.0 {
            Outcome::Packed(packed) => writeln!(f, "  ok {}", HexDigits(packed)),
            Outcome::Refused(field) => writeln!(f, "  {}", FieldRefusal(*field)),
            Outcome::Unpacked(read) => write!(f, "{}", LogLines(read)),
        }
    }
}

// The answer to words as its lines.
fn answer_lines(heap: Global, words: &[&[u8]]) -> Result<String, AllocError>
    ensures says { IfOk result (λ t. Says (request_of (map (λ x. x.now) words.now)) (string_bytes t)) }
    ensures explains { IfOk result (λ t. IfErr (request_of (map (λ x. x.now) words.now)) (λ e. string_bytes t ≡ indented (codes "error: " ++ fault_text e))) }
{
    // A line that finds no memory is answered without its echo, so that mistake goes back as the allocator's error: a From for
    // it would have to answer for the other mistakes too, and is no plainer.
    match answer(heap, words) {
        Ok(outcome) => OutcomeLines(&outcome).to_string(heap),
        Err(Mistake::NoMemory) => Err(AllocError),
        Err(mistake) => format!(in heap; "  error: {mistake}\n"),
    }
}

// What a line is answered with: its echo and the answer, or nothing where it has no words.
pub fn reply(heap: Global, input: &[u8]) -> Result<Option<String>, AllocError>
    ensures replies { IfOk result (λ o. Replies (line_words input.now) (option_map string_bytes o)) }
    ensures explains { IfOk result (λ o. Explains (line_words input.now) (option_map string_bytes o)) }
{
    let words = words(heap, input)?;
    if words.is_empty() {
        return Ok(None);
    }
    let answered = answer_lines(heap, words.as_slice())?;
    let text = format!(in heap; "{}\n{answered}", EchoedWords(words.as_slice()))?;
    Ok(Some(text))
}
