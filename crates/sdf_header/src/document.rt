//! What the text of a header says.

ghost use Rattle.std.specs.Prelude.{◌≤◌, All};
ghost use Rattle.std.proofs.Props.{props};
ghost use Rattle.hot_units.specs.Limits.{max_row_bytes};
ghost use Rattle.sdf_header.specs.Types.{LiesIn};

use crate::kind::Kind;
use std::collections::BTreeMap;

/// A name, the text from its first byte on, and the text behind it.
#[derive(Clone, Copy)]
pub struct Named<'a> {
    pub name: &'a [u8],
    pub start: &'a [u8],
    pub rest: &'a [u8],
}

/// What a statement gives to a name.
#[derive(Clone, Copy)]
pub enum Value {
    Whole(i128),
    /// A text, a word, or a number that is not whole.
    Other,
}

/// A name that a statement gives, with its value.
#[derive(Clone, Copy)]
pub struct Given<'a> {
    pub name: &'a [u8],
    pub value: Value,
}

/// A column of the struct, which begins so many bytes behind the beginning of a row.
#[derive(Clone, Copy)]
pub struct Column<'a> {
    pub name: &'a [u8],
    pub kind: Kind,
    pub offset: u32,
    pub is_array: bool,
}

/// The columns so far, and the bytes that they take together.
#[derive(Drop)]
pub struct Columns<'a> {
    pub list: Vec<Column<'a>>,
    pub width: u32,
    ghost narrow: { width ≤ max_row_bytes },
    ghost inside: { All (LiesIn width) list.items } by { Prim.hlevel props },
}

/// The struct, with the stated number of rows.
#[derive(Drop)]
pub struct Table<'a> {
    pub columns: Columns<'a>,
    pub size: Option<u64>,
}

/// The statements of a header: the values that they give to names, and the struct.
#[derive(Drop)]
pub struct Document<'a> {
    pub given: BTreeMap<&'a [u8], Value>,
    pub table: Option<Table<'a>>,
}
