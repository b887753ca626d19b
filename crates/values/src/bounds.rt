// A value that is none of those converted to.
#[derive(Clone, Copy, Debug, PartialEq, Eq)]
pub struct OutOfBounds;
