// The limits of sources and sinks.

/// How many `open` calls a source takes.
pub const MAX_OPENS: u32 = 4_294_967_295;

/// The most bytes that a sink in memory has room for.
pub const MAX_ROOM: u64 = 268_435_456;

/// The bytes of a block.
pub const BLOCK: usize = 4_096;

/// The most bytes of a number in decimal, with its sign.
pub const NUMBER_ROOM: usize = 40;
