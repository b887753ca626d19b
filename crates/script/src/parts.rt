ghost use Rattle.std.specs.Prelude.{vec_items};
ghost use Rattle.script.specs.Requests.{number_in, text_in, hex_in, Read as Reads};

use crate::mistake::Mistake;
use scan::numbers::{Unsigned, fitting};
use std::alloc::Global;
use values::field::Field;
use words::{hex, texts};

// A number of a field.
pub fn number<'a, T: Unsigned>(field: Field, word: &'a [u8]) -> Result<T, Mistake<'a>>
    ensures { Reads T.value (number_in field T.MOST word.now) result }
{
    fitting(word).ok_or(Mistake::Number(field, word, T::MOST))
}

pub fn text<'a>(heap: Global, field: Field, word: &'a [u8]) -> Result<Vec<u8>, Mistake<'a>>
    ensures { Reads vec_items (text_in field word.now) result }
{
    texts::bytes(heap, word)?.ok_or(Mistake::Text(field, word))
}

// Bytes as hex digits.
pub fn bytes<'a>(heap: Global, word: &'a [u8]) -> Result<Vec<u8>, Mistake<'a>>
    ensures { Reads vec_items (hex_in word.now) result }
{
    let mistake = if word.len() % 2 == 1 {
        Mistake::OddHex(word.len())
    } else {
        Mistake::NoHex
    };
    hex::bytes(heap, word)?.ok_or(mistake)
}
