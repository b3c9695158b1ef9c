//! Adding the rows of a piece to the bodies, one row at a time.
ghost use Rattle.std.specs.Prelude.{◌≤◌, ℕ, List, ◌++◌, length, take, IfOk, MatchResult};
ghost use Rattle.sdf_header.specs.Layouts.{LayoutValue};
ghost use Rattle.body_set.specs.Sets.{SetValue};
ghost use Rattle.body_file.specs.Reading.{IsAt, PushesRow, StopsRows};

use crate::fault::{FileError, FileFault, row_error};
use body_set::BodySet;
use hot_units::RawRow;
use sdf_rows::Rows;

/// Adds a row as the next body.
fn push_row(set: &mut BodySet, raw: &RawRow) -> Result<(), FileError>
    ensures { PushesRow set.old set.new raw.now result }
{
    match set.push(raw) {
        Ok(()) => Ok(()),
        Err(error) => Err(row_error(error)),
    }
}

/// Takes a piece of the bytes behind the header up to the end of the current row, adds that row to
/// the set where it ends in the piece, and says how many bytes it took.
fn take_row(rows: &mut Rows, set: &mut BodySet, piece: &[u8]) -> Result<usize, FileError>
    requires some { 1 ≤ length piece.now }
    requires fed { (before : SetValue) × (l : LayoutValue) × (bytes : List ℕ)
        × IsAt before l rows.old set.old bytes }
    ensures within { IfOk result (λ taken. (1 ≤ taken) × (taken ≤ length piece.now)) }
    ensures step { (before : SetValue) (l : LayoutValue) (bytes : List ℕ)
        → IsAt before l rows.old set.old bytes → MatchResult result
        (λ taken. IsAt before l rows.new set.new (bytes ++ take taken piece.now))
        (StopsRows before l (bytes ++ piece.now)) }
{
    let step = match rows.feed(piece) {
        Ok(step) => step,
        Err(fault) => return Err(FileError::Refused(FileFault::End(fault))),
    };
    let Some(raw) = step.row else {
        return Ok(step.taken);
    };
    push_row(set, &raw)?;
    Ok(step.taken)
}

/// Takes a piece of the bytes behind the header: adds each row that ends in it to the set.
pub fn take_rows(rows: &mut Rows, set: &mut BodySet, piece: &[u8]) -> Result<(), FileError>
    requires fed { (before : SetValue) × (l : LayoutValue) × (bytes : List ℕ)
        × IsAt before l rows.old set.old bytes }
    ensures { (before : SetValue) (l : LayoutValue) (bytes : List ℕ)
        → IsAt before l rows.old set.old bytes → MatchResult result
        (λ _. IsAt before l rows.new set.new (bytes ++ piece.now))
        (StopsRows before l (bytes ++ piece.now)) }
{
    let mut rest = piece;
    'rows: while !rest.is_empty() {
        let taken = take_row(rows, set, rest)?;
        rest = &rest[taken..];
    }
    Ok(())
}
