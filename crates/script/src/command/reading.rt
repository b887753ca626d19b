ghost use Rattle.std.specs.Prelude.{◌≡◌, map, vec_items};
ghost use Rattle.script.specs.Drafts.{drafted};
ghost use Rattle.script.specs.Requests.{substrate_words, location_words, report_of, bytes_of, request_of, Read as Reads};
ghost use Rattle.script.specs.Commands.{asked};

use crate::command::Command;
use crate::draft::Draft;
use crate::mistake::{Form, Mistake};
use crate::parts::{bytes, number, text};
use reports::raw::{Numbers, Raw};
use std::alloc::Global;
use values::field::Field;
use values::report::Family;

// A substrate report by its ten words.
fn substrate<'a>(heap: Global, words: &[&'a [u8]]) -> Result<Draft, Mistake<'a>>
    ensures { Reads drafted (substrate_words (map (λ x. x.now) words.now)) result }
{
    let [
        row,
        time,
        id,
        place,
        source,
        destination,
        transport,
        processing,
        reading,
        acquired,
    ] = words
    else {
        return Err(Mistake::Count(Form::Substrate, words.len()));
    };
    let row = number(Field::Row, row)?;
    let time = number(Field::Time, time)?;
    let id = text(heap, Field::Id, id)?;
    let place = number(Field::Place, place)?;
    let source = number(Field::Source, source)?;
    let destination = number(Field::Destination, destination)?;
    let transport = number(Field::Transport, transport)?;
    let processing = number(Field::Processing, processing)?;
    let reading = number(Field::Reading, reading)?;
    let acquired = text(heap, Field::Acquired, acquired)?;
    Ok(Raw {
        numbers: Numbers {
            family: u8::from(Family::Substrate),
            row,
            transport,
            processing,
            reading,
            spare: 0,
            time,
            place,
            source,
            destination,
        },
        id,
        acquired,
    })
}

// A location report by its three words, or four where an ID is given.
fn location<'a>(heap: Global, words: &[&'a [u8]]) -> Result<Draft, Mistake<'a>>
    ensures { Reads drafted (location_words (map (λ x. x.now) words.now)) result }
{
    let (row, time, place, id) = match words {
        [row, time, place] => (row, time, place, None),
        [row, time, place, id] => (row, time, place, Some(id)),
        _ => return Err(Mistake::Count(Form::Location, words.len())),
    };
    let row = number(Field::Row, row)?;
    let time = number(Field::Time, time)?;
    let place = number(Field::Place, place)?;
    let id = match id {
        Some(id) => text(heap, Field::Id, id)?,
        None => Vec::new(heap),
    };
    Ok(Raw {
        numbers: Numbers {
            family: u8::from(Family::Location),
            row,
            time,
            place,
            ..Numbers::default()
        },
        id,
        acquired: Vec::new(heap),
    })
}

// A report by its kind and the words after it.
fn report<'a>(heap: Global, words: &[&'a [u8]]) -> Result<Draft, Mistake<'a>>
    ensures { Reads drafted (report_of (map (λ x. x.now) words.now)) result }
{
    let [kind, rest @ ..] = words else {
        return Err(Mistake::Count(Form::Pack, 0));
    };
    match *kind {
        b"substrate" => substrate(heap, rest),
        b"location" => location(heap, rest),
        _ => Err(Mistake::NoKind(kind)),
    }
}

// Bytes by one word, or none by no word.
fn log<'a>(heap: Global, words: &[&'a [u8]]) -> Result<Vec<u8>, Mistake<'a>>
    ensures { Reads vec_items (bytes_of (map (λ x. x.now) words.now)) result }
{
    match words {
        [] => Ok(Vec::new(heap)),
        [word] => bytes(heap, word),
        _ => Err(Mistake::Count(Form::Unpack, words.len())),
    }
}

impl Command {
    // The command of a line's words.
    pub fn read<'a>(heap: Global, words: &[&'a [u8]]) -> Result<Command, Mistake<'a>>
        ensures { Reads asked (request_of (map (λ x. x.now) words.now)) result }
    {
        let [name, rest @ ..] = words else {
            return Err(Mistake::Nothing);
        };
        match *name {
            b"pack" => Ok(Command::Pack(report(heap, rest)?)),
            b"unpack" => Ok(Command::Unpack(log(heap, rest)?)),
            _ => Err(Mistake::NoCommand(name)),
        }
    }
}
