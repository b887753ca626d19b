ghost use Rattle.std.specs.Prelude.{◌≡◌, length, replicate, None, is_none, position};
ghost use Rattle.table.specs.Laws.{First, FirstFree, Found, Full, NoneFound, Unknown};
ghost use Rattle.table.specs.Lookup.{bears, in_use, lookup, Once, row_at, row_found, says};

use crate::row::Row;

pub mod change;

// A table over rows that are lent to it: a free row is a `None`. Each method says for itself, in `lender`, that the rows
// are still those that were lent: `rows.ghost_name` is as plain as any name for it would be.
#[derive(Drop)]
pub struct Table<'a, R: Row> {
    rows: &'a mut [Option<R>],
}

fn holds<R: Row>(row: &Option<R>, key: &R::Key) -> bool
    ensures { result ≡ bears (says R.named R.Key.meaning) R.Key.tells (R.Key.meaning key.now) row.entry.now }
{
    row.is_some_and(|row| row.key() == *key)
}

// Tried: the chains inside `find` and `free`; the proof did not close, so the two searches are functions.
fn first_with<R: Row>(rows: &[Option<R>], key: &R::Key) -> Option<usize>
    ensures { result ≡ position (bears (says R.named R.Key.meaning) R.Key.tells (R.Key.meaning key.now)) rows.now }
{
    rows.iter().position(|row| holds(row, key))
}

fn first_free<R: Row>(rows: &[Option<R>]) -> Option<usize>
    ensures { result ≡ position is_none rows.now }
{
    rows.iter().position(|row| row.is_none())
}

impl<'a, R: Row> Table<'a, R> {
    // The rows stay as they are.
    pub fn new(rows: &'a mut [Option<R>]) -> Table<'a, R>
        ensures rows { result.rows.now ≡ rows.old }
        ensures lender { result.rows.ghost_name ≡ rows.entry.ghost_name }
    {
        Table { rows }
    }

    // All rows become free.
    pub fn cleared(rows: &'a mut [Option<R>]) -> Table<'a, R>
        ensures rows { result.rows.now ≡ replicate (length rows.old) None }
        ensures lender { result.rows.ghost_name ≡ rows.entry.ghost_name }
        ensures used { in_use result.rows.now ≡ 0 }
        ensures unknown { Unknown (says R.named R.Key.meaning) R.Key.tells result.rows.now }
        ensures once { Once (says R.named R.Key.meaning) R.Key.tells result.rows.now }
    {
        rows.fill(None);
        Table::new(rows)
    }

    pub fn len(&self) -> usize
        ensures { result ≡ length self.now.rows.now }
    {
        self.rows.len()
    }

    // How many rows are in use.
    pub fn used(&self) -> usize
        ensures { result ≡ in_use self.now.rows.now }
    {
        self.rows.iter().filter(|row| row.is_some()).count()
    }

    // The position of the first row with the key.
    pub fn find(&self, key: &R::Key) -> Option<usize>
        ensures value { result ≡ position (bears (says R.named R.Key.meaning) R.Key.tells (R.Key.meaning key.now)) self.now.rows.now }
        ensures exact { First (says R.named R.Key.meaning) (R.Key.meaning key.now) self.now.rows.now result }
        ensures row { lookup (says R.named R.Key.meaning) R.Key.tells self.now.rows.now (R.Key.meaning key.now) ≡ row_found self.now.rows.now result }
        ensures none { NoneFound (says R.named R.Key.meaning) R.Key.tells (R.Key.meaning key.now) self.now.rows.now result }
    {
        first_with(self.rows, key)
    }

    // The position of the first free row.
    pub fn free(&self) -> Option<usize>
        ensures value { result ≡ position is_none self.now.rows.now }
        ensures exact { FirstFree self.now.rows.now result }
        ensures full { Full self.now.rows.now result }
    {
        first_free(self.rows)
    }

    // The row in use at a position; none if it is free or past the end.
    pub fn get(&self, i: usize) -> Option<R>
        ensures { result ≡ row_at self.now.rows.now i }
    {
        self.rows.get(i).copied().flatten()
    }

    // The first row with the key.
    pub fn lookup(&self, key: &R::Key) -> Option<R>
        ensures value { result ≡ lookup (says R.named R.Key.meaning) R.Key.tells self.now.rows.now (R.Key.meaning key.now) }
        ensures exact { Found (says R.named R.Key.meaning) (R.Key.meaning key.now) self.now.rows.now result }
    {
        self.get(self.find(key)?)
    }
}
