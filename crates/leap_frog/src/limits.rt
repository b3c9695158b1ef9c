//! The numbers of specs/ for the code.

/// A velocity is in units of 2^-20 of fine length a step: so many of its bits are below one.
pub const VELOCITY_BITS: u32 = 20;
