ghost use Rattle.std.specs.Prelude.{◌≡◌};
ghost use Rattle.values.specs.Values.{coded};
ghost use Rattle.cabinet.specs.Views.{view, vacated, SameRows};

use crate::cabinet::Cabinet;
use values::code::Code;

impl<'a, N: Copy> Cabinet<'a, N> {
    // The place has no occupant any more.
    pub fn vacate(&mut self, code: Code)
        ensures view { view self.new ≡ vacated (coded code) (view self.old) }
        ensures rows { SameRows self.old self.new }
    {
        self.occupy(code, None);
    }
}
