//! The limit of arrays in a header: the number of specs/Limits.antt for the code.

/// The longest array column.
pub const MAX_ARRAY_LENGTH: u32 = 1024;
