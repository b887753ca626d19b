ghost use Rattle.std.specs.Prelude.{◌≡◌, [], ◌∷◌, length};
ghost use Rattle.std.specs.List.{slice_get};
ghost use Rattle.std.specs.Option.{option_map};
ghost use Rattle.model.specs.Wafers.{at_time, moved_on, opened as stay_opened};
ghost use Rattle.wafers.specs.Stays.{stay, stays};
ghost use Rattle.values.specs.Values.{coded, moment};

use crate::entry::Entry;
use crate::history::History;
use values::code::Code;
use values::time::Time;

impl History {
    // The most entries that a wafer has.
    pub const MOST: usize = 16;

    // One open entry.
    pub fn opened(place: Code, time: Time) -> History
        ensures { stays result ≡ stay_opened (coded place) (moment time) ∷ [] }
    {
        History {
            entries: [Entry::opened(place, time); 16],
            count: 1,
        }
    }

    // How many entries there are.
    pub fn len(&self) -> usize
        ensures { result ≡ length (stays self.now) }
    {
        self.count
    }

    // The entry at an index, counted from 0, oldest first.
    pub fn entry(&self, index: usize) -> Option<Entry>
        ensures { option_map stay result ≡ slice_get (stays self.now) index }
    {
        self.entries[..self.count].get(index).copied()
    }

    // The last entry is ended and one opened at the place; sixteen entries stay as they are.
    pub fn moved_on(self, place: Code, time: Time) -> History
        ensures { stays result ≡ moved_on (at_time (moment time)) (coded place) (stays self) }
    {
        let History { mut entries, count } = self;
        if count >= History::MOST {
            return self;
        }
        entries[count - 1] = entries[count - 1].ended(time);
        entries[count] = Entry::opened(place, time);
        History {
            entries,
            count: count + 1,
        }
    }
}
