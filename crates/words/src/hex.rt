ghost use Rattle.std.specs.Prelude.{◌≡◌, ◌<◌, IfOk, Some, vec_items, string_bytes, IsAscii};
ghost use Rattle.std.specs.Option.{option_map};
ghost use Rattle.words.specs.Hex.{hex_digit, hex_byte, hex_word, hex_digits, hex_pair, glyph};
ghost use Rattle.words.specs.Laws.{HexReadsBack};

use std::alloc::{AllocError, Global};
use std::fmt;

// The value of a hex digit, in either case. By ranges, for speed: `to_digit` takes longer.
fn digit(c: u8) -> Option<u8>
    ensures { result ≡ hex_digit c }
{
    match c {
        b'0'..=b'9' => Some(c - b'0'),
        b'A'..=b'F' => Some(c - b'A' + 10),
        b'a'..=b'f' => Some(c - b'a' + 10),
        _ => None,
    }
}

// The byte that two hex digits write.
pub(crate) fn byte(high: u8, low: u8) -> Option<u8>
    ensures { result ≡ hex_byte high low }
{
    let h = digit(high)?;
    let l = digit(low)?;
    Some(h * 16 + l)
}

// The bytes that a word of hex digits writes, two digits for each. By index, for speed: over `chunks(2)` it took half as long again.
#[tactic(auto, using(crate::proofs::Written::hex_reads_back))]
pub fn bytes(heap: Global, word: &[u8]) -> Result<Option<Vec<u8>>, AllocError>
    ensures value { IfOk result (λ o. option_map vec_items o ≡ hex_word word.now) }
    ensures reads { HexReadsBack }
{
    let mut out = Vec::new(heap);
    let mut i = 0;
    while word.len() - i >= 2 {
        let Some(b) = byte(word[i], word[i + 1]) else {
            return Ok(None);
        };
        out.push(b)?;
        i += 2;
    }
    if i < word.len() {
        return Ok(None);
    }
    Ok(Some(out))
}

// ASCII bytes as a text. That they are UTF-8 is proved, and they are not looked at again.
pub(crate) fn ascii(bytes: &[u8]) -> &str
    requires { IsAscii bytes.now }
    ensures { result.now ≡ bytes.now }
{
    unsafe { std::str::from_utf8_unchecked(bytes) }
}

// The digit of a value below 16.
fn digit_of(value: u8) -> u8
    requires { value < 16 }
    ensures { result ≡ glyph value }
{
    if value < 10 {
        b'0' + value
    } else {
        b'A' - 10 + value
    }
}

// A byte's two digits. Not `{:02X}`, which takes several times as long.
pub(crate) fn pair(b: u8) -> [u8; 2]
    ensures value { result ≡ hex_pair b }
    ensures ascii { IsAscii result }
{
    [digit_of(b / 16), digit_of(b % 16)]
}

// Bytes as hex digits, two for each.
#[derive(Clone, Copy)]
pub struct HexDigits<'a>(pub &'a [u8]);

impl fmt::Display for HexDigits<'_> {
    ghost output = { λ h. Some (hex_digits h.0.now) };

    fn fmt<W: fmt::Write>(&self, f: &mut fmt::Formatter<W>) -> fmt::Result {
        for &b in self.0 {
            f.write_str(ascii(&pair(b)))?;
        }
        Ok(())
    }
}

// The digits of bytes, which read as those bytes again.
#[tactic(auto, using(crate::proofs::Written::hex_reads_back))]
pub fn digits(heap: Global, bytes: &[u8]) -> Result<String, AllocError>
    ensures value { IfOk result (λ s. string_bytes s ≡ hex_digits bytes.now) }
    ensures reads { HexReadsBack }
{
    HexDigits(bytes).to_string(heap)
}
