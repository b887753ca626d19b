ghost use Rattle.std.specs.Prelude.{nat_eq};
ghost use Rattle.std.specs.Str.{bytes_eq};
ghost use Rattle.table.specs.Lookup.{Once};
ghost use Rattle.texts.specs.Meaning.{called};
ghost use Rattle.values.specs.Values.{coded};

use table::rows::Table;
use wafers::place::Place;
use wafers::wafer::Wafer;

pub mod asking;
pub mod changing;
pub mod vacating;

// The tables of one party, over lent rows: its wafers and its places, each with what the party notes there.
#[derive(Drop)]
pub struct Cabinet<'a, N: Copy> {
    wafers: Table<'a, Wafer>,
    places: Table<'a, Place<N>>,
    ghost ids: { Once (λ w. called w.id) bytes_eq wafers.rows.now },
    ghost codes: { Once (λ p. coded p.code) nat_eq places.rows.now },
}
