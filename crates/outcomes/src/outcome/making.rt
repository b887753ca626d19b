ghost use Rattle.std.specs.Prelude.{◌≡◌, map, IfOk};
ghost use Rattle.script.specs.Commands.{asked};
ghost use Rattle.script.specs.Drafts.{drafted};
ghost use Rattle.script.specs.Requests.{request_of, packing, unpacking};
ghost use Rattle.outcomes.specs.Outcomes.{came, answer_to, Answers};

use crate::outcome::Outcome;
use layout::write::write;
use packed_log::reading::read_log;
use reports::report::Report;
use script::command::Command;
use script::draft::{Draft, raw};
use script::mistake::Mistake;
use std::alloc::{AllocError, Global};

// The bytes of a draft's report, or why there is none.
fn pack(draft: &Draft) -> Outcome
    ensures { came result ≡ answer_to (packing (drafted draft.now)) }
{
    match Report::make(&raw(draft)) {
        Ok(report) => Outcome::Packed(write(&report)),
        Err(field) => Outcome::Refused(field),
    }
}

// The reports of bytes.
fn unpack(heap: Global, bytes: &[u8]) -> Result<Outcome, AllocError>
    ensures { IfOk result (λ o. came o ≡ answer_to (unpacking bytes.now)) }
{
    Ok(Outcome::Unpacked(read_log(heap, bytes)?))
}

// Carries a command out.
pub fn carry_out(heap: Global, command: &Command) -> Result<Outcome, AllocError>
    ensures { IfOk result (λ o. came o ≡ answer_to (asked command.now)) }
{
    match command {
        Command::Pack(draft) => Ok(pack(draft)),
        Command::Unpack(bytes) => unpack(heap, bytes.as_slice()),
    }
}

// What comes of a line's words.
pub fn answer<'a>(heap: Global, words: &[&'a [u8]]) -> Result<Outcome, Mistake<'a>>
    ensures { Answers (request_of (map (λ x. x.now) words.now)) result }
{
    let command = Command::read(heap, words)?;
    Ok(carry_out(heap, &command)?)
}
