//! The limits of bodies, cells, commands and files: the numbers of specs/Limits.antt for the code.

/// How many bits a fine coordinate has.
pub const FINE_BITS: u32 = 29;

/// How many levels of cells lie below the root.
pub const MAX_LEVEL: u32 = 21;

/// At most so many bodies.
pub const MAX_BODIES: u32 = 1_048_576;

/// At most so many generated bodies.
pub const MAX_GENERATED: u32 = 262_144;

/// The largest mass of one body.
pub const MAX_BODY_MASS: u32 = 4_294_967_295;

/// The largest work weight of one body.
pub const MAX_WORK: u32 = 4_294_967_295;

/// The largest mass of all bodies together.
pub const MAX_ALL_MASS: u64 = 1_099_511_627_776;

/// The most ranks of a run.
pub const MAX_RANKS: u32 = 64;

/// The largest leaf limit.
pub const MAX_LEAF: u32 = 64;

/// The largest number on either side of an opening ratio.
pub const MAX_RATIO: u32 = 1024;

/// The largest softening, in fine units.
pub const MAX_SOFTENING: u32 = 268_435_456;

/// The longest header of a body file, in bytes.
pub const MAX_HEADER_BYTES: usize = 65_536;

/// The most columns of a body file.
pub const MAX_COLUMNS: usize = 64;

/// The longest row of a body file, in bytes.
pub const MAX_ROW_BYTES: u32 = 1024;

/// The most body files of a run.
pub const MAX_FILES: usize = 16;
