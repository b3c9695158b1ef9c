//! The limit of texts in a header: the number of specs/Limits.antt for the code.

/// The longest text between quotes, in bytes.
pub const MAX_TEXT_BYTES: usize = 4096;
