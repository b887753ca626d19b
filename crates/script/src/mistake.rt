ghost use Rattle.std.specs.Prelude.{◌≡◌, Some};
ghost use Rattle.std.specs.List.{list_all};
ghost use Rattle.words.specs.Texts.{graphic};
ghost use Rattle.script.specs.declared.mistake.Mistake.TheVariants.{NoMemory};
ghost use Rattle.script.specs.Wording.{wanted, mistake_text};

use std::alloc::AllocError;
use std::fmt;
use values::field::Field;
use words::texts::EchoedWord;

// What a number of words belongs to.
#[derive(Clone, Copy, Debug, PartialEq, Eq)]
pub enum Form {
    Pack,
    Substrate,
    Location,
    Unpack,
}

// Why a command cannot be carried out as it is written.
#[derive(Clone, Copy, Debug, PartialEq, Eq)]
pub enum Mistake<'a> {
    // There is no word.
    Nothing,
    // No command has this name.
    NoCommand(&'a [u8]),
    // No report is of this kind.
    NoKind(&'a [u8]),
    // Another number of words belongs there.
    Count(Form, usize),
    // A field's word is no number, or one above the field's most.
    Number(Field, &'a [u8], u64),
    // A field's word is no text.
    Text(Field, &'a [u8]),
    // So many hex digits are odd.
    OddHex(usize),
    // A character is no hex digit.
    NoHex,
    // The memory does not suffice.
    NoMemory,
}

impl From<AllocError> for Mistake<'_> {
    ghost from_gives = { λ _ r. r ≡ NoMemory };

    fn from(_error: AllocError) -> Self {
        Mistake::NoMemory
    }
}

// The words that a form takes.
impl fmt::Display for Form {
    ghost output = { λ form. Some (wanted form) };

    fn fmt<W: fmt::Write>(&self, f: &mut fmt::Formatter<W>) -> fmt::Result {
        f.write_str(match self {
            Form::Pack => "pack takes the words of a report, not",
            Form::Substrate => "a substrate report has 10 words after its kind, not",
            Form::Location => "a location report has 3 or 4 words after its kind, not",
            Form::Unpack => "unpack takes at most one word, not",
        })
    }
}

// Whether each byte is from hex 21 to 7E. A function: with the chain in the test the proof did not close.
fn all_graphic(word: &[u8]) -> bool
    ensures { result ≡ list_all graphic word.now }
{
    word.iter().all(|b| b.is_ascii_graphic())
}

impl fmt::Display for Mistake<'_> {
    ghost output = { λ m. Some (mistake_text m) };

    fn fmt<W: fmt::Write>(&self, f: &mut fmt::Formatter<W>) -> fmt::Result {
        match *self {
            Mistake::Nothing => f.write_str("no words"),
            Mistake::NoCommand(word) => write!(f, "no command '{}'", EchoedWord(word)),
            Mistake::NoKind(word) => {
                write!(
                    f,
                    "no report '{}', only substrate and location",
                    EchoedWord(word)
                )
            }
            Mistake::Count(form, n) => write!(f, "{form} {n}"),
            Mistake::Number(field, word, most) => {
                write!(
                    f,
                    "{field} '{}' is no number up to {most}",
                    EchoedWord(word)
                )
            }
            Mistake::Text(field, word) => {
                let reason = if all_graphic(word) {
                    "% stands before two hex digits, or in %- alone"
                } else {
                    "it has a byte outside hex 21 to 7E"
                };
                write!(f, "{field} '{}' is no text: {reason}", EchoedWord(word))
            }
            Mistake::OddHex(n) => write!(f, "HEX has {n} digits, an odd number"),
            Mistake::NoHex => f.write_str("HEX has a character that is no hex digit"),
            Mistake::NoMemory => f.write_str("not enough memory"),
        }
    }
}
