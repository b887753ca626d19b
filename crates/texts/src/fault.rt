// Bytes that form no text, or no ID.
#[derive(Clone, Copy, Debug, PartialEq, Eq)]
pub struct Malformed;
