//! The limits of what is summed over all bodies: the numbers of specs/Limits.antt for the code.

/// The largest size of a component of a velocity.
pub const MAX_VELOCITY: u128 = 1 << 42;
