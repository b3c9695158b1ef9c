//! The limits of a table: the numbers of specs/Limits.antt for the code.

/// At least so many low bits of a key choose its bucket.
pub const MIN_BITS: u32 = 4;

/// At most so many low bits of a key choose its bucket.
pub const MAX_BITS: u32 = 24;
