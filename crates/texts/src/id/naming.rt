ghost use Rattle.std.specs.Prelude.{◌≡◌, Some};
ghost use Rattle.std.specs.Option.{option_map};
ghost use Rattle.std.specs.Result.{result_ok};
ghost use Rattle.texts.specs.Form.{id_of};
ghost use Rattle.texts.specs.Meaning.{called};

use crate::fault::Malformed;
use crate::id::Id;
use crate::text::Text;
use std::fmt;

impl Id {
    // The ID of the given bytes, if they form one.
    pub fn new(given: &[u8]) -> Option<Id>
        ensures { option_map called result ≡ id_of given.now }
    {
        let text = Text::new(given)?;
        if text.is_empty() {
            return None;
        }
        Some(Id { text })
    }

    pub fn text(&self) -> Text
        ensures { result ≡ self.now.text }
    {
        self.text
    }
}

impl TryFrom<&[u8]> for Id {
    type Error = Malformed;

    ghost try_from_gives = { λ bs r. option_map called (result_ok r) ≡ id_of bs.now };

    fn try_from(given: &[u8]) -> Result<Id, Malformed> {
        Id::new(given).ok_or(Malformed)
    }
}

impl fmt::Display for Id {
    ghost output = { λ i. Some (called i) };

    fn fmt<W: fmt::Write>(&self, f: &mut fmt::Formatter<W>) -> fmt::Result {
        f.pad(self.text.as_str())
    }
}
