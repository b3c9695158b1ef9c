//! The struct of a header: its columns and its stated size.

ghost use Rattle.std.specs.Prelude.{◌≡◌, ◌≤◌, ◌<◌, length, suc, ℕ, IfOk, IfSome};
ghost use Rattle.sdf_header.specs.Limits.{max_array_length};
ghost use Rattle.sdf_tokens.specs.Tokens.{lex_of, lexeme_of, next, Advances};
ghost use Rattle.sdf_tokens.specs.Numbers.{sees_rest};
ghost use Rattle.sdf_header.specs.Parts.{Gives, name_of};
ghost use Rattle.sdf_header.specs.Fields.{fields_of, row_of, struct_and_rest, has_field};
ghost use Rattle.sdf_header.specs.Fields.{with_field, length_of, array_at, bracket_in, item_at};
ghost use Rattle.sdf_header.specs.Fields.{items_at, line_at, lines_at, struct_at};

use crate::document::{Column, Columns, Named, Table};
use crate::fault::Stop;
use crate::kind::Kind;
use crate::limits::MAX_ARRAY_LENGTH;
use crate::parts::{is_the, named, sign_at, size_at, type_at, word_at};
use crate::types::bytes_of;
use hot_units::limits::{MAX_COLUMNS, MAX_ROW_BYTES};
use sdf_tokens::{Fault, FaultKind, Lexed, Token, fault_at, next, syntax_at};
use std::alloc::Global;

fn has_field(name: &[u8], columns: &[Column<'_>]) -> bool
    ensures { result ≡ has_field name.now (fields_of columns.now) }
{
    for column in columns {
        if column.name == name {
            return true;
        }
    }
    false
}

/// Adds a column of so many values, if the row has room for it.
#[tactic(auto, unfolding(crate::specs::Fields::with_field))]
fn add_column<'a>(
    columns: &mut Columns<'a>,
    kind: Kind,
    n: Named<'a>,
    count: u32,
    is_array: bool,
) -> Result<(), Stop>
    requires some { 1 ≤ count }
    requires bound { count ≤ max_array_length }
    ensures { Gives (λ _. row_of columns.new) result
        (with_field (row_of columns.old) kind (name_of n.entry) count is_array) }
{
    let width = columns.width + bytes_of(kind) * count;
    if width > MAX_ROW_BYTES {
        return Err(Stop::Fault(fault_at(FaultKind::TooWide, n.start)));
    }
    columns.list.push(Column {
        name: n.name,
        kind,
        offset: columns.width,
        is_array,
    })?;
    columns.width = width;
    Ok(())
}

fn length_of(token: Token<'_>) -> Option<u32>
    ensures exact { result ≡ length_of (lexeme_of token.entry) }
    ensures some { IfSome result (λ n. 1 ≤ n) }
    ensures bound { IfSome result (λ n. n ≤ max_array_length) }
{
    match token {
        Token::Number(Some(value)) if 1 <= value && value <= i128::from(MAX_ARRAY_LENGTH) => Some(
            value as u32,
        ),
        _ => None,
    }
}

#[tactic(auto, unfolding(crate::specs::Fields::array_at))]
fn array_at<'a>(
    columns: &mut Columns<'a>,
    kind: Kind,
    n: Named<'a>,
    bytes: &'a [u8],
) -> Result<&'a [u8], Stop>
    ensures exact { Gives (λ rest. (row_of columns.new, rest.now)) result
        (array_at (row_of columns.old) kind (name_of n.entry) bytes.now) }
    ensures shorter { IfOk result (λ rest. length rest.now ≤ length bytes.now) }
{
    let l = next(bytes)?;
    let Some(count) = length_of(l.token) else {
        return Err(Stop::Fault(syntax_at(l.start)));
    };
    add_column(columns, kind, n, count, true)?;
    Ok(sign_at(b']', l.rest)?)
}

/// What is behind an opening bracket, if that is the next token.
fn behind_bracket(bytes: &[u8]) -> Option<&[u8]>
    ensures exact { sees_rest result ≡ bracket_in (next bytes.now) }
    ensures shorter { IfSome result (λ rest. length rest.now ≤ length bytes.now) }
{
    let Ok(l) = next(bytes) else {
        return None;
    };
    if !is_the(b'[', l.token) {
        return None;
    }
    Some(l.rest)
}

#[tactic(auto, unfolding(crate::specs::Fields::item_at))]
fn item_at<'a>(columns: &mut Columns<'a>, kind: Kind, bytes: &'a [u8]) -> Result<&'a [u8], Stop>
    ensures exact { Gives (λ rest. (row_of columns.new, rest.now)) result
        (item_at (row_of columns.old) kind bytes.now) }
    ensures shorter { IfOk result (λ rest. length rest.now < length bytes.now) }
{
    let n = word_at(bytes)?;
    if has_field(n.name, &columns.list) {
        return Err(Stop::Fault(fault_at(FaultKind::NameTwice, n.start)));
    }
    if columns.list.len() == MAX_COLUMNS {
        return Err(Stop::Fault(fault_at(FaultKind::TooWide, n.start)));
    }
    if let Some(inside) = behind_bracket(n.rest) {
        return array_at(columns, kind, n, inside);
    }
    add_column(columns, kind, n, 1, false)?;
    Ok(n.rest)
}

#[tactic(auto, using(crate::proofs::Items::start, crate::proofs::Items::more, crate::proofs::Items::done, crate::proofs::Items::no_sign,),)]
fn items_at<'a>(columns: &mut Columns<'a>, kind: Kind, bytes: &'a [u8]) -> Result<&'a [u8], Stop>
    ensures exact { Gives (λ rest. (row_of columns.new, rest.now)) result
        (items_at (suc (length bytes.now)) kind (row_of columns.old) bytes.now) }
    ensures shorter { IfOk result (λ rest. length rest.now ≤ length bytes.now) }
{
    let mut rest = bytes;
    'items: loop {
        let after = item_at(columns, kind, rest)?;
        let l = next(after)?;
        if is_the(b';', l.token) {
            return Ok(l.rest);
        }
        if !is_the(b',', l.token) {
            return Err(Stop::Fault(syntax_at(l.start)));
        }
        rest = l.rest;
    }
}

#[tactic(auto, unfolding(crate::specs::Fields::line_at))]
fn line_at<'a>(columns: &mut Columns<'a>, l: Lexed<'a>) -> Result<&'a [u8], Stop>
    ensures exact { Gives (λ rest. (row_of columns.new, rest.now)) result
        (line_at (row_of columns.old) (lex_of l.entry)) }
    ensures shorter { (before : ℕ) → Advances l.entry.token (length l.entry.rest.now) before
        → IfOk result (λ rest. length rest.now < before) }
{
    let n = named(l)?;
    let (kind, rest) = type_at(n)?;
    items_at(columns, kind, rest)
}

#[tactic(auto, using(crate::proofs::Lines::start, crate::proofs::Lines::more, crate::proofs::Lines::done),)]
fn lines_at<'a>(columns: &mut Columns<'a>, bytes: &'a [u8]) -> Result<&'a [u8], Stop>
    ensures exact { Gives (λ rest. (row_of columns.new, rest.now)) result
        (lines_at (suc (length bytes.now)) (row_of columns.old) bytes.now) }
    ensures shorter { IfOk result (λ rest. length rest.now ≤ length bytes.now) }
{
    let mut rest = bytes;
    'lines: loop {
        let l = next(rest)?;
        if is_the(b'}', l.token) {
            return Ok(l.rest);
        }
        rest = line_at(columns, l)?;
    }
}

#[tactic(auto, unfolding(crate::specs::Fields::struct_at))]
pub fn struct_at(alloc: Global, bytes: &[u8]) -> Result<(Table<'_>, &[u8]), Stop>
    ensures exact { Gives struct_and_rest result (struct_at bytes.now) }
    ensures shorter { IfOk result (λ x. length x.1.now ≤ length bytes.now) }
{
    let inside = sign_at(b'{', bytes)?;
    let mut columns = Columns {
        list: Vec::new(alloc),
        width: 0,
    };
    let behind = lines_at(&mut columns, inside)?;
    let bracket = sign_at(b'[', behind)?;
    let (size, rest) = size_at(bracket)?;
    let rest = sign_at(b';', rest)?;
    Ok((Table { columns, size }, rest))
}
