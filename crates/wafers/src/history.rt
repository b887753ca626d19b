ghost use Rattle.std.specs.Prelude.{◌≡◌, ◌≤◌, length};

use crate::entry::Entry;

pub mod stays;

// Where a wafer has been, oldest first. The entries past the count are not used. An array with a count, since the memory is fixed,
// there is no heap, and rows are Copy, which the kit's `ArrayVec` is not.
#[derive(Clone, Copy)]
pub struct History {
    entries: [Entry; 16],
    count: usize,
    ghost whole: { length entries ≡ 16 },
    ghost some: { 1 ≤ count },
    ghost fits: { count ≤ 16 },
}
