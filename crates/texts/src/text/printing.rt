ghost use Rattle.std.specs.Prelude.{◌≡◌, Some};
ghost use Rattle.texts.specs.Meaning.{spelled};

use crate::text::Text;
use std::fmt;

impl Text {
    pub fn as_str(&self) -> &str
        ensures { result.now ≡ spelled self.now }
    {
        std::str::from_utf8(&self.bytes[..self.size]).unwrap()
    }
}

impl fmt::Display for Text {
    ghost output = { λ t. Some (spelled t) };

    fn fmt<W: fmt::Write>(&self, f: &mut fmt::Formatter<W>) -> fmt::Result {
        f.pad(self.as_str())
    }
}
