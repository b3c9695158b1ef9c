//! The types of values and columns, by their names.

ghost use Rattle.std.specs.Prelude.{◌≡◌, ◌≤◌};
ghost use Rattle.sdf_header.specs.Types.{kind_named, wide_kind, unsigned_kind, is_whole, is_char};
ghost use Rattle.sdf_header.specs.Types.{bytes_of};

use crate::kind::{Kind, Whole};

/// The type of one word with this name.
pub fn kind_named(word: &[u8]) -> Option<Kind>
    ensures { result ≡ kind_named word.now }
{
    if word == b"char".as_slice() {
        Some(Kind::Char)
    } else if word == b"int8_t".as_slice() {
        Some(Kind::Whole(Whole::I8))
    } else if word == b"uint8_t".as_slice() {
        Some(Kind::Whole(Whole::U8))
    } else if word == b"short".as_slice() {
        Some(Kind::Whole(Whole::I16))
    } else if word == b"int16_t".as_slice() {
        Some(Kind::Whole(Whole::I16))
    } else if word == b"uint16_t".as_slice() {
        Some(Kind::Whole(Whole::U16))
    } else {
        wide_kind(word)
    }
}

/// The type of one word with this name, where a value has four bytes or eight.
fn wide_kind(word: &[u8]) -> Option<Kind>
    ensures { result ≡ wide_kind word.now }
{
    if word == b"int".as_slice() {
        Some(Kind::Whole(Whole::I32))
    } else if word == b"int32_t".as_slice() {
        Some(Kind::Whole(Whole::I32))
    } else if word == b"uint32_t".as_slice() {
        Some(Kind::Whole(Whole::U32))
    } else if word == b"int64_t".as_slice() {
        Some(Kind::Whole(Whole::I64))
    } else if word == b"uint64_t".as_slice() {
        Some(Kind::Whole(Whole::U64))
    } else if word == b"float".as_slice() {
        Some(Kind::Float)
    } else if word == b"double".as_slice() {
        Some(Kind::Double)
    } else {
        None
    }
}

/// The type of `unsigned` and this word.
pub fn unsigned_kind(word: &[u8]) -> Option<Kind>
    ensures { result ≡ unsigned_kind word.now }
{
    if word == b"char".as_slice() {
        Some(Kind::Whole(Whole::U8))
    } else if word == b"short".as_slice() {
        Some(Kind::Whole(Whole::U16))
    } else if word == b"int".as_slice() {
        Some(Kind::Whole(Whole::U32))
    } else {
        None
    }
}

pub fn is_whole(kind: Kind) -> bool
    ensures { result ≡ is_whole kind }
{
    matches!(kind, Kind::Whole(_))
}

pub fn is_char(kind: Kind) -> bool
    ensures { result ≡ is_char kind }
{
    matches!(kind, Kind::Char)
}

/// How many bytes a value of this type has.
pub fn bytes_of(kind: Kind) -> u32
    ensures value { result ≡ bytes_of kind }
    ensures some { 1 ≤ result }
    ensures bound { result ≤ 8 }
{
    match kind {
        Kind::Char | Kind::Whole(Whole::I8 | Whole::U8) => 1,
        Kind::Whole(Whole::I16 | Whole::U16) => 2,
        Kind::Float | Kind::Whole(Whole::I32 | Whole::U32) => 4,
        Kind::Double | Kind::Whole(Whole::I64 | Whole::U64) => 8,
    }
}
