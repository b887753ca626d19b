ghost use Rattle.std.specs.Prelude.{◌≡◌};
ghost use Rattle.std.specs.Option.{option_map};
ghost use Rattle.wafers.specs.Held.{held};
ghost use Rattle.wafers.specs.Spots.{spot_of};
ghost use Rattle.texts.specs.Meaning.{called};
ghost use Rattle.values.specs.Values.{coded};
ghost use Rattle.cabinet.specs.Views.{view, stored, inserted, removed, occupied_by, noted, Changed, SameRows};

use crate::cabinet::Cabinet;
use texts::id::Id;
use values::code::Code;
use wafers::place::Place;
use wafers::wafer::Wafer;

impl<'a, N: Copy> Cabinet<'a, N> {
    // A registered wafer's row holds this.
    pub fn store(&mut self, wafer: Wafer)
        ensures view { view self.new ≡ stored (called wafer.id) (held wafer) (view self.old) }
        ensures rows { SameRows self.old self.new }
    {
        self.wafers.replace(&wafer.id.text(), wafer);
    }

    // A wafer that is not registered gets a row, if one is free.
    pub fn insert(&mut self, wafer: Wafer)
        ensures view { view self.new ≡ inserted (called wafer.id) (held wafer) (view self.old) }
        ensures rows { SameRows self.old self.new }
    {
        if self.wafers.find(&wafer.id.text()).is_none() {
            self.wafers.insert(wafer);
        }
    }

    // A registered wafer's row becomes free.
    pub fn remove(&mut self, id: &Id)
        ensures view { view self.new ≡ removed (called id.now) (view self.old) }
        ensures rows { SameRows self.old self.new }
    {
        self.wafers.remove(&id.text());
    }

    // A listed place gives way to what the change makes of it, which has the same code and kind.
    fn change<F: FnOnce(Place<N>) -> Place<N>>(&mut self, code: Code, change: F)
        requires can { F.IsAlwaysCallable change }
        requires same { (p q : _) → F.post change p q → spot_of q ≡ spot_of p }
        ensures view { Changed (F.post change) (coded code) (view self.old) (view self.new) }
        ensures rows { SameRows self.old self.new }
    {
        let number = code.number();
        if let Some(place) = self.places.lookup(&number) {
            self.places.replace(&number, change(place));
        }
    }

    // A listed place has this occupant.
    pub fn occupy(&mut self, code: Code, occupant: Option<Id>)
        ensures view { view self.new ≡ occupied_by (coded code) (option_map called occupant) (view self.old) }
        ensures rows { SameRows self.old self.new }
    {
        self.change(code, |place| place.with_occupant(occupant));
    }

    // This is noted at a listed place.
    pub fn note(&mut self, code: Code, note: N)
        ensures view { view self.new ≡ noted (coded code) note (view self.old) }
        ensures rows { SameRows self.old self.new }
    {
        self.change(code, |place| place.with_note(note));
    }
}
