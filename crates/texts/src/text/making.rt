ghost use Rattle.std.specs.Prelude.{◌≡◌, ℕ, List, [], length, ◌==◌};
ghost use Rattle.std.specs.Option.{option_map};
ghost use Rattle.std.specs.Result.{result_ok};
ghost use Rattle.std.specs.Str.{bytes_eq};
ghost use Rattle.texts.specs.Form.{text_of, padded};
ghost use Rattle.texts.specs.Meaning.{spelled};
ghost use Rattle.std.proofs.lemmas.Slice.Eq.{bytes_eq-Decides};
ghost use Rattle.texts.specs.Equal.{same_spelled};

use crate::fault::Malformed;
use crate::text::Text;
use table::key::Key;

impl Text {
    // The most bytes that a text has.
    pub const MOST: usize = 16;

    // The text of the given bytes, if they form one.
    pub fn new(given: &[u8]) -> Option<Text>
        ensures { option_map spelled result ≡ text_of given.now }
    {
        let size = given.len();
        if size > Text::MOST {
            return None;
        }
        if !given.iter().all(u8::is_ascii_graphic) {
            return None;
        }
        let mut bytes = [0; Text::MOST];
        bytes[..size].copy_from_slice(given);
        Some(Text { bytes, size })
    }

    // The text of no bytes.
    pub fn empty() -> Text
        ensures { spelled result ≡ [] }
    {
        Text {
            bytes: [0; 16],
            size: 0,
        }
    }

    pub fn len(&self) -> usize
        ensures { result ≡ length (spelled self.now) }
    {
        self.size
    }

    pub fn is_empty(&self) -> bool
        ensures { result ≡ (length (spelled self.now) == 0) }
    {
        self.len() == 0
    }

    // The text's bytes, then zeros up to sixteen.
    pub fn padded(&self) -> [u8; 16]
        ensures { result ≡ padded (spelled self.now) }
    {
        self.bytes
    }
}

impl TryFrom<&[u8]> for Text {
    type Error = Malformed;

    ghost try_from_gives = { λ bs r. option_map spelled (result_ok r) ≡ text_of bs.now };

    fn try_from(given: &[u8]) -> Result<Text, Malformed> {
        Text::new(given).ok_or(Malformed)
    }
}

impl Key for Text {
    ghost Meaning = { List ℕ };

    ghost meaning = { spelled };

    ghost tells = { bytes_eq };

    ghost exact = { λ a b. bytes_eq-Decides a b };

    ghost equal = { same_spelled };
}
