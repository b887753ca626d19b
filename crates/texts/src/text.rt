ghost use Rattle.std.specs.Prelude.{◌≡◌, ◌≤◌, true, take};
ghost use Rattle.texts.specs.Form.{graphic_all, padded};

pub mod making;
pub mod printing;

// A text of at most sixteen bytes, each from hex 21 to 7E; the bytes after its end are zero.
// An array and how much of it is used: a text has fixed memory and no heap, and is copied. The kit's `ArrayString` would do but
// that it says nothing of the bytes after its end, which `padded` gives.
#[derive(Clone, Copy, Debug, PartialEq, Eq)]
pub struct Text {
    bytes: [u8; 16],
    size: usize,
    ghost fits: { size ≤ 16 },
    ghost used: { graphic_all (take size bytes) ≡ true },
    ghost cleared: { bytes ≡ padded (take size bytes) },
}
