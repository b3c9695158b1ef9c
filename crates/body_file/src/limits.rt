//! The limits of reading.

/// The most bytes that one read may give.
pub const PIECE_BYTES: usize = 4096;
