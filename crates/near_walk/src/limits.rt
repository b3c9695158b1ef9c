//! The limits of a visit: the numbers of specs/Limits.antt for the code.

/// The largest radius, in fine units: it reaches from every place of the cube to every other.
pub const MAX_RADIUS: u32 = 1_073_741_824;
