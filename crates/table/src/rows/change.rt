ghost use Rattle.std.specs.Prelude.{◌≡◌, Some, None, is_none, position, slice_set};
ghost use Rattle.table.specs.Laws.{Filled, InsertedOnce, InsertedOwn, KeepsOnce, OneLess, OneMore, Others, PutOnce, PutOthers, PutOwn, RemovedOwn, ReplacedOnce, ReplacedOthers, ReplacedOwn, VacatedOthers, VacatedOwn};
ghost use Rattle.table.specs.Lookup.{bears, in_use, lookup, placed, row_at, says};

use crate::row::Row;
use crate::rows::Table;

impl<'a, R: Row> Table<'a, R> {
    fn write(&mut self, i: usize, row: Option<R>)
        ensures rows { self.new.rows.now ≡ slice_set self.old.rows.now i row }
        ensures lender { self.new.rows.ghost_name ≡ self.old.rows.ghost_name }
    {
        // Tried: `if let Some(place) = self.rows.get_mut(i)`; the slice's `get_mut` does not say what the rows become, and the proof did not close.
        if i < self.rows.len() {
            self.rows[i] = row;
        }
    }

    // The row goes to a position; past the end nothing changes.
    pub fn put(&mut self, i: usize, row: R)
        ensures rows { self.new.rows.now ≡ slice_set self.old.rows.now i (Some row) }
        ensures lender { self.new.rows.ghost_name ≡ self.old.rows.ghost_name }
        ensures own { PutOwn (says R.named R.Key.meaning) R.Key.tells i row self.old.rows.now self.new.rows.now }
        ensures others { PutOthers (says R.named R.Key.meaning) R.Key.tells i row self.old.rows.now self.new.rows.now }
        ensures used { Filled self.old.rows.now self.new.rows.now i }
        ensures once { PutOnce (says R.named R.Key.meaning) R.Key.tells i row self.old.rows.now self.new.rows.now }
    {
        self.write(i, Some(row));
    }

    // The row at a position becomes free.
    pub fn vacate(&mut self, i: usize)
        ensures rows { self.new.rows.now ≡ slice_set self.old.rows.now i None }
        ensures lender { self.new.rows.ghost_name ≡ self.old.rows.ghost_name }
        ensures own { VacatedOwn (says R.named R.Key.meaning) R.Key.tells i self.old.rows.now self.new.rows.now }
        ensures others { VacatedOthers (says R.named R.Key.meaning) R.Key.tells i self.old.rows.now self.new.rows.now }
        ensures used { OneLess self.old.rows.now self.new.rows.now (row_at self.old.rows.now i) }
        ensures once { KeepsOnce (says R.named R.Key.meaning) R.Key.tells self.old.rows.now self.new.rows.now }
    {
        self.write(i, None);
    }

    // The row goes to the first free row, and the answer is its position; none, and nothing changed, if no row is free.
    pub fn insert(&mut self, row: R) -> Option<usize>
        ensures value { result ≡ position is_none self.old.rows.now }
        ensures rows { self.new.rows.now ≡ placed self.old.rows.now (Some row) result }
        ensures lender { self.new.rows.ghost_name ≡ self.old.rows.ghost_name }
        ensures own { InsertedOwn (says R.named R.Key.meaning) R.Key.tells row self.old.rows.now self.new.rows.now result }
        ensures others { Others (says R.named R.Key.meaning) R.Key.tells (says R.named R.Key.meaning row) self.old.rows.now self.new.rows.now }
        ensures used { OneMore self.old.rows.now self.new.rows.now result }
        ensures once { InsertedOnce (says R.named R.Key.meaning) R.Key.tells row self.old.rows.now self.new.rows.now }
    {
        let free = self.free()?;
        self.write(free, Some(row));
        Some(free)
    }

    // The first row with the key gives way to another, and the answer is its position; none, and nothing changed, if no row has the key.
    pub fn replace(&mut self, key: &R::Key, row: R) -> Option<usize>
        ensures value { result ≡ position (bears (says R.named R.Key.meaning) R.Key.tells (R.Key.meaning key.now)) self.old.rows.now }
        ensures rows { self.new.rows.now ≡ placed self.old.rows.now (Some row) result }
        ensures lender { self.new.rows.ghost_name ≡ self.old.rows.ghost_name }
        ensures own { ReplacedOwn (says R.named R.Key.meaning) R.Key.tells (R.Key.meaning key.now) row self.new.rows.now result }
        ensures others { ReplacedOthers (says R.named R.Key.meaning) R.Key.tells (R.Key.meaning key.now) row self.old.rows.now self.new.rows.now }
        ensures used { in_use self.new.rows.now ≡ in_use self.old.rows.now }
        ensures once { ReplacedOnce (says R.named R.Key.meaning) R.Key.tells (R.Key.meaning key.now) row self.old.rows.now self.new.rows.now }
    {
        let found = self.find(key)?;
        self.write(found, Some(row));
        Some(found)
    }

    // The first row with the key becomes free, and the answer is that row; none, and nothing changed, if no row has the key.
    pub fn remove(&mut self, key: &R::Key) -> Option<R>
        ensures value { result ≡ lookup (says R.named R.Key.meaning) R.Key.tells self.old.rows.now (R.Key.meaning key.now) }
        ensures rows { self.new.rows.now ≡ placed self.old.rows.now None (position (bears (says R.named R.Key.meaning) R.Key.tells (R.Key.meaning key.now)) self.old.rows.now) }
        ensures lender { self.new.rows.ghost_name ≡ self.old.rows.ghost_name }
        ensures own { RemovedOwn (says R.named R.Key.meaning) R.Key.tells (R.Key.meaning key.now) self.old.rows.now self.new.rows.now }
        ensures others { Others (says R.named R.Key.meaning) R.Key.tells (R.Key.meaning key.now) self.old.rows.now self.new.rows.now }
        ensures used { OneLess self.old.rows.now self.new.rows.now result }
        ensures once { KeepsOnce (says R.named R.Key.meaning) R.Key.tells self.old.rows.now self.new.rows.now }
    {
        let found = self.find(key)?;
        let row = self.get(found);
        self.write(found, None);
        row
    }
}
