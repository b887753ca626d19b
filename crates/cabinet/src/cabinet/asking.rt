ghost use Rattle.std.specs.Prelude.{◌≡◌, IfSome, nat_lt};
ghost use Rattle.std.specs.Option.{option_map, option_flatten};
ghost use Rattle.model.specs.Places.{sites, index};
ghost use Rattle.wafers.specs.Held.{held};
ghost use Rattle.wafers.specs.Spots.{spot_of, occupant_of};
ghost use Rattle.texts.specs.Meaning.{called};
ghost use Rattle.cabinet.specs.Views.{view};

use crate::cabinet::Cabinet;
use texts::id::Id;
use wafers::place::Place;
use wafers::wafer::Wafer;

impl<'a, N: Copy> Cabinet<'a, N> {
    // The wafer with an ID.
    pub fn wafer(&self, id: &Id) -> Option<Wafer>
        ensures held { option_map held result ≡ (view self.now).contents.wafer (called id.now) }
        ensures named { IfSome result (λ w. called w.id ≡ called id.now) }
    {
        self.wafers.lookup(&id.text())
    }

    // The place with a code.
    pub fn place(&self, code: u16) -> Option<Place<N>>
        ensures spot { sites (view self.now).plan code ≡ option_map spot_of result }
        ensures occupant { (view self.now).contents.occupant code ≡ option_flatten (option_map occupant_of result) }
        ensures note { (view self.now).notes code ≡ option_map (λ p. p.note) result }
    {
        self.places.lookup(&code)
    }

    // The position of the place with a code.
    pub fn position(&self, code: u16) -> Option<usize>
        ensures { result ≡ index (view self.now).plan code }
    {
        self.places.find(&code)
    }

    // Whether a wafer row is free.
    pub fn has_free_row(&self) -> bool
        ensures { result ≡ nat_lt (view self.now).contents.used (view self.now).rows }
    {
        self.wafers.used() < self.wafers.len()
    }
}
