//! The types of values and columns.

/// A whole type: signed (in two's complement) or unsigned, with its number of bits.
#[derive(Clone, Copy, Debug, PartialEq, Eq)]
pub enum Whole {
    I8,
    U8,
    I16,
    U16,
    I32,
    U32,
    I64,
    U64,
}

/// The type of a value or a column.
#[derive(Clone, Copy)]
pub enum Kind {
    Whole(Whole),
    Char,
    Float,
    Double,
}
