ghost use Rattle.std.specs.Prelude.{◌≡◌, ◌<◌, ◌==◌, ◌&&◌, ◌∷◌, not, map, length, position, IfOk, IfSome, Some, vec_items, string_bytes};
ghost use Rattle.std.specs.Option.{option_map};
ghost use Rattle.std.specs.List.{flat_map, list_any};
ghost use Rattle.std.specs.Fmt.{WritesOnOk};
ghost use Rattle.words.specs.Hex.{hex_pair};
ghost use Rattle.words.specs.Texts.{graphic, first_byte, unescaped, text_word, written_byte, escaped, echoed_byte, echoed};
ghost use Rattle.words.specs.Laws.{TextReadsBack};

use crate::hex;
use std::alloc::{AllocError, Global};
use std::fmt;

// The byte that a word begins with, and the rest of the word.
fn first(word: &[u8]) -> Option<(u8, &[u8])>
    ensures value { option_map (λ p. (p.0, p.1.now)) result ≡ first_byte word.now }
    ensures shorter { IfSome result (λ p. length p.1.now < length word.now) }
{
    match word {
        [b'%', high, low, rest @ ..] => Some((hex::byte(*high, *low)?, rest)),
        [b, rest @ ..] if *b != b'%' && b.is_ascii_graphic() => Some((*b, rest)),
        _ => None,
    }
}

fn unescape(heap: Global, word: &[u8]) -> Result<Option<Vec<u8>>, AllocError>
    ensures { IfOk result (λ o. option_map vec_items o ≡ unescaped word.now) }
{
    let mut out = Vec::new(heap);
    let mut left = word;
    while let Some((b, rest)) = first(left) {
        out.push(b)?;
        left = rest;
    }
    Ok(left.is_empty().then_some(out))
}

// The bytes of a text as a command writes it.
#[tactic(auto, using(crate::proofs::Written::text_reads_back), unfolding(crate::specs::Texts::text_word))]
pub fn bytes(heap: Global, word: &[u8]) -> Result<Option<Vec<u8>>, AllocError>
    ensures value { IfOk result (λ o. option_map vec_items o ≡ text_word word.now) }
    ensures reads { TextReadsBack }
{
    match word {
        b"%-" => Ok(Some(Vec::new(heap))),
        _ => unescape(heap, word),
    }
}

// The position of the first byte that is not written as it is; a graphic one that is not among the `escapes` is.
fn first_escape(bytes: &[u8], escapes: &[u8]) -> Option<usize>
    ensures { result ≡ position (λ b. not (graphic b && not (list_any (λ e. e == b) escapes.now))) bytes.now }
{
    bytes
        .iter()
        .position(|b| !(b.is_ascii_graphic() && !escapes.contains(b)))
}

// Writes `%` and a byte's two hex digits.
fn write_code<W: fmt::Write>(f: &mut fmt::Formatter<W>, b: u8) -> fmt::Result
    ensures { WritesOnOk W.write_str_gives f.old result (37 ∷ hex_pair b) f.new }
{
    let [high, low] = hex::pair(b);
    f.write_str(hex::ascii(&[b'%', high, low]))
}

// Writes bytes: a graphic one that is not among the `escapes` as it is, and each other one as `%` and its two hex digits. What
// stands between two escapes is written at once, which takes a fraction of the time of byte after byte.
fn write_bytes<W: fmt::Write>(
    f: &mut fmt::Formatter<W>,
    bytes: &[u8],
    escapes: &[u8],
) -> fmt::Result
    ensures { WritesOnOk W.write_str_gives f.old result (flat_map (written_byte escapes.now) bytes.now) f.new }
{
    let mut left = bytes;
    while let Some(n) = first_escape(left, escapes) {
        f.write_str(hex::ascii(&left[..n]))?;
        write_code(f, left[n])?;
        left = &left[n + 1..];
    }
    f.write_str(hex::ascii(left))
}

// The word that stands for the bytes of a text.
#[derive(Clone, Copy)]
pub struct TextWord<'a>(pub &'a [u8]);

impl fmt::Display for TextWord<'_> {
    ghost output = { λ t. Some (escaped t.0.now) };

    fn fmt<W: fmt::Write>(&self, f: &mut fmt::Formatter<W>) -> fmt::Result {
        if self.0.is_empty() {
            return f.write_str("%-");
        }
        write_bytes(f, self.0, b"%#")
    }
}

// The word that stands for bytes, and reads as them again.
#[tactic(auto, using(crate::proofs::Written::text_reads_back))]
pub fn escaped(heap: Global, bytes: &[u8]) -> Result<String, AllocError>
    ensures value { IfOk result (λ s. string_bytes s ≡ escaped bytes.now) }
    ensures reads { TextReadsBack }
{
    TextWord(bytes).to_string(heap)
}

// A word as the echo of a command has it.
#[derive(Clone, Copy)]
pub struct EchoedWord<'a>(pub &'a [u8]);

impl fmt::Display for EchoedWord<'_> {
    ghost output = { λ w. Some (flat_map echoed_byte w.0.now) };

    fn fmt<W: fmt::Write>(&self, f: &mut fmt::Formatter<W>) -> fmt::Result {
        write_bytes(f, self.0, b"")
    }
}

// A command's words as they are echoed, joined by one blank.
#[derive(Clone, Copy)]
pub struct EchoedWords<'w, 'a>(pub &'w [&'a [u8]]);

impl fmt::Display for EchoedWords<'_, '_> {
    ghost output = { λ ws. Some (echoed (map (λ x. x.now) ws.0.now)) };

    fn fmt<W: fmt::Write>(&self, f: &mut fmt::Formatter<W>) -> fmt::Result {
        if let [first, rest @ ..] = self.0 {
            f.write(EchoedWord(first))?;
            for word in rest {
                write!(f, " {}", EchoedWord(word))?;
            }
        }
        Ok(())
    }
}

// A command's words as they are echoed, joined by one blank.
pub fn echo(heap: Global, words: &[&[u8]]) -> Result<String, AllocError>
    ensures { IfOk result (λ s. string_bytes s ≡ echoed (map (λ x. x.now) words.now)) }
{
    EchoedWords(words).to_string(heap)
}
