//! Why a header is refused.

/// A column that a body file must have, or may have.
#[derive(Clone, Copy, Debug, PartialEq, Eq)]
pub enum ColName {
    X,
    Y,
    Z,
    Mass,
    Ident,
    Work,
}

/// A parameter of a header: the order of bytes, the cube, and the mass of each body where no column
/// gives it.
#[derive(Clone, Copy, Debug, PartialEq, Eq)]
pub enum ParamName {
    ByteOrder,
    CubeBits,
    CubeX0,
    CubeY0,
    CubeZ0,
    Mass,
}

/// Why a header is refused. A number of 32 bits is the place of the first byte of what decides,
/// from 0.
///
/// The order of faults: `NoMagic`; `TooLong` or `NoEnd`; of `Syntax`, `UnknownType`, `NameTwice`,
/// `SecondStruct` and `TooWide` the one with the smallest place (of two at one place `NameTwice`);
/// then `NoStruct`, `Missing`, `NotWhole`, `BadParameter` and `TooMany`.
#[derive(Clone, Copy, Debug, PartialEq, Eq)]
pub enum HeaderFault {
    /// The input does not begin with `# SDF`.
    NoMagic,
    /// The first 65,536 bytes are there, and the header does not end within them.
    TooLong,
    /// The input ends before that, without an end of the header.
    NoEnd,
    /// No token, or one that cannot stand here, or the end of the text in a statement.
    Syntax(u32),
    /// A word where a type is wanted, which begins none.
    UnknownType(u32),
    /// A name of a statement that an earlier statement has, or of a column that an earlier column
    /// has.
    NameTwice(u32),
    /// The word `struct` of a second struct.
    SecondStruct(u32),
    /// There is no struct.
    NoStruct,
    /// The name of the 65th column, or of one that makes the row longer than 1,024 bytes; a column
    /// with `[` counts once its length is read and good.
    TooWide(u32),
    /// The first of the columns `x`, `y`, `z` that is not there, or is an array.
    Missing(ColName),
    /// The first of `x`, `y`, `z`, `mass`, `ident`, `work` that is a column, no array, and not of a
    /// whole type.
    NotWhole(ColName),
    /// The first parameter that is not a whole number in its range; of the byte order, not one of
    /// the two marks.
    BadParameter(ParamName),
    /// The stated number of rows, which is above 1,048,576.
    TooMany(u64),
}
