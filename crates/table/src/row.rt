ghost use Rattle.std.specs.Prelude.{◌≡◌};

use crate::key::Key;

// A row in use, which has a key; a free row of a table is a `None`.
// Clauses write `says R.named R.Key.meaning`. Tried as one member, `ghost says: { Self → Self.Key.Meaning }`: a member's type
// may not name a bound's, and a law may not tie a `Told: { Type 0 }` to it, so the proof did not close.
pub trait Row: Copy {
    type Key: Key;

    ghost named: { Self → Self.Key };

    fn key(&self) -> Self::Key
        ensures { result ≡ named self.now };
}
