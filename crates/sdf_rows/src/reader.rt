//! The reader of rows, in any pieces.

ghost use Rattle.std.specs.Prelude.{◌≡◌, ◌+◌, ◌-◌, ◌^◌, ◌<◌, ◌≤◌, ◌++◌, [], length, is_some, min};
ghost use Rattle.std.specs.Prelude.{ℕ, List, IfOk, IfSome};
ghost use Rattle.hot_units.specs.Limits.{max_bodies};
ghost use Rattle.sdf_rows.specs.Rows.{row_of, row_number, rows_from, ending_from, Has64Bits};
ghost use Rattle.sdf_rows.specs.Reading.{IsBehind, reader_from, reader_behind, is_full};
ghost use Rattle.sdf_rows.specs.Reading.{answer_from, read_of, given_by};

use crate::layout_row::row_of;
use crate::raw_row::{RowFault, RowStep};
use hot_units::RawRow;
use hot_units::limits::MAX_ROW_BYTES;
use sdf_header::Layout;
use std::marker::Model;

/// A reader of the rows behind a header, in any pieces.
///
/// It takes no memory: it keeps the bytes of one row. It is seen as its layout, the number of its
/// first row, how many rows it gave, the bytes of the row that is not whole, and whether a byte came
/// behind the last row. Rows are counted and numbered up to 2^64 - 1.
#[derive(Drop)]
pub struct Rows {
    layout: Layout,
    first: u64,
    given: u64,
    held: [u8; MAX_ROW_BYTES as usize],
    filled: usize,
    beyond: bool,
}

impl Model for Rows {
    ghost use Rattle.std.specs.Prelude.{◌≡◌, ◌≤◌, take, length};
    ghost use Rattle.hot_units.specs.Limits.{max_bodies, max_row_bytes};
    ghost use Rattle.sdf_header.specs.Layouts.{IsLayout};
    ghost use Rattle.sdf_rows.specs.Reading.{RowsValue};

    ghost Value = { RowsValue };

    ghost view = { λ r. record {
      layout = r.layout;
      first = r.first;
      given = r.given;
      held = take r.filled r.held;
      beyond = r.beyond;
    } };

    ghost invariant = { λ r. IsLayout r.layout × (r.filled ≤ r.layout.width)
        × (length r.held ≡ max_row_bytes) × (r.first ≤ max_bodies) };
}

impl Rows {
    /// A reader that was given no bytes, and numbers its rows from 0.
    pub fn new(layout: Layout) -> Rows
        ensures empty { result ≡ reader_behind layout [] }
    {
        Rows::from_row(layout, 0)
    }

    /// A reader that was given no bytes, and numbers its rows from `first`, at most 1,048,576: so a
    /// file goes on behind the rows of the files before it. An absent ident is the row's number, and
    /// `Truncated` names it.
    pub fn from_row(layout: Layout, first: u64) -> Rows
        requires within { first ≤ max_bodies }
        ensures empty { result ≡ reader_from layout first [] }
    {
        Rows {
            layout,
            first,
            given: 0,
            held: [0; MAX_ROW_BYTES as usize],
            filled: 0,
            beyond: false,
        }
    }

    /// Takes bytes of the next piece of the input, up to the end of the current row, and gives that
    /// row where it is whole. The bytes that were not taken begin the next piece. A row that lies
    /// whole in the piece is read where it lies; of another one each byte is copied once.
    ///
    /// Whatever the pieces, the rows given are the rows of the bytes joined. The fault is
    /// `Trailing`, exactly where a count is stated and all its rows were given, and comes again at
    /// each call.
    pub fn feed(&mut self, piece: &[u8]) -> Result<RowStep, RowFault>
        requires some { 1 ≤ length piece.now }
        ensures answer { (bytes : List ℕ) → IsBehind self.old bytes
            → result ≡ answer_from self.old.layout self.old.first bytes piece.now }
        ensures after { (bytes : List ℕ) → IsBehind self.old bytes
            → IsBehind self.new (bytes ++ read_of result piece.now) }
        // The rows of the bytes joined are those given before, and now the one given here.
        ensures rows { (bytes : List ℕ) → IsBehind self.old bytes
            → rows_from self.old.layout self.old.first (bytes ++ read_of result piece.now)
            ≡ rows_from self.old.layout self.old.first bytes ++ given_by result }
        ensures layout { self.new.layout ≡ self.old.layout }
        ensures first { self.new.first ≡ self.old.first }
        ensures within { IfOk result (λ step. step.taken ≤ length piece.now) }
        ensures fits { IfOk result (λ step. IfSome step.row Has64Bits) }
    {
        if self.is_full() {
            self.beyond = true;
            return Err(RowFault::Trailing);
        }
        let wanted = self.wanted();
        if piece.len() < wanted {
            self.keep(piece);
            return Ok(RowStep {
                taken: piece.len(),
                row: None,
            });
        }
        let row = self.row_with(&piece[..wanted]);
        Ok(RowStep {
            taken: wanted,
            row: Some(row),
        })
    }

    /// How many rows were given, where the input ends here.
    ///
    /// The fault is `Truncated`, exactly where the bytes end within the row of that number or before
    /// a stated count is reached, or the fault that `feed` gave.
    pub fn finish(&self) -> Result<u64, RowFault>
        ensures ending { (bytes : List ℕ) → IsBehind self.now bytes
            → result ≡ ending_from self.now.layout self.now.first bytes }
    {
        if self.beyond {
            return Err(RowFault::Trailing);
        }
        if self.is_full() {
            return Ok(self.given);
        }
        let cut = RowFault::Truncated { row: self.number() };
        if self.is_counted() {
            return Err(cut);
        }
        if self.kept().is_empty() {
            Ok(self.given)
        } else {
            Err(cut)
        }
    }

    /// Whether a count is stated and all its rows were given.
    fn is_full(&self) -> bool
        ensures { (bytes : List ℕ) → IsBehind self.now bytes
            → result ≡ is_full self.now.layout bytes }
    {
        match self.layout.count {
            Some(count) => self.given >= u64::from(count),
            None => false,
        }
    }

    /// The number of the current row.
    fn number(&self) -> u64
        ensures { result ≡ row_number (self.now.first + self.now.given) }
    {
        self.first.saturating_add(self.given)
    }

    /// Whether a count is stated.
    fn is_counted(&self) -> bool
        ensures { result ≡ is_some self.now.layout.count }
    {
        self.layout.count.is_some()
    }

    /// How many bytes a row has.
    fn width(&self) -> usize
        ensures value { result ≡ self.now.layout.width }
        ensures some { 1 ≤ result }
    {
        self.layout.width as usize
    }

    /// The bytes of the current row that are kept.
    fn kept(&self) -> &[u8]
        ensures bytes { result.now ≡ self.now.held }
        ensures few { length self.now.held ≤ self.now.layout.width }
    {
        &self.held[..self.filled]
    }

    /// How many bytes the current row still wants.
    fn wanted(&self) -> usize
        ensures { length self.now.held + result ≡ self.now.layout.width }
    {
        self.width() - self.kept().len()
    }

    /// Keeps bytes of the current row.
    fn keep(&mut self, piece: &[u8])
        requires { length self.old.held + length piece.now ≤ self.old.layout.width }
        ensures { self.new ≡ record self.old { held = self.old.held ++ piece.now } }
    {
        let end = self.filled + piece.len();
        self.held[self.filled..end].copy_from_slice(piece);
        self.filled = end;
    }

    /// The current row, whose last bytes these are. The next row becomes the current one.
    fn row_with(&mut self, rest: &[u8]) -> RawRow
        requires { length self.old.held + length rest.now ≡ self.old.layout.width }
        ensures value { result ≡ row_of self.old.layout
            (row_number (self.old.first + self.old.given)) (self.old.held ++ rest.now) }
        ensures after { self.new
            ≡ record self.old { given = min (self.old.given + 1) (2 ^ 64 - 1); held = [] } }
        ensures fits { Has64Bits result }
    {
        let number = self.number();
        if self.kept().is_empty() {
            let row = row_of(&self.layout, number, rest);
            self.end_row();
            return row;
        }
        self.keep(rest);
        let row = row_of(&self.layout, number, self.kept());
        self.end_row();
        row
    }

    /// Counts the current row, and begins the next one.
    fn end_row(&mut self)
        ensures { self.new
            ≡ record self.old { given = min (self.old.given + 1) (2 ^ 64 - 1); held = [] } }
    {
        self.given = self.given.saturating_add(1);
        self.filled = 0;
    }
}
