ghost use Rattle.std.specs.Prelude.{◌≤◌};

pub mod switching;

// The reader switch, and a silence switch for each place of the list, by its position.
// An array and a count: the memory is fixed, there is no heap, and the kit's `ArrayVec` would be one thing more to trust.
#[derive(Drop)]
pub struct Settings {
    reader: bool,
    silenced: [bool; 128],
    count: usize,
    ghost some: { 1 ≤ count },
    ghost few: { count ≤ 128 },
}
