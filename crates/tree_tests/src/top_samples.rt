//! Branch lists for tests, of cells and bodies by hand.
ghost use Rattle.std.specs.Prelude.{◌≡◌, ◌<◌, ◌≤◌, ℕ, true, length, get_or, All, IsTrue};
ghost use Rattle.hot_units.specs.Keys as keys;
ghost use Rattle.branch_merge.specs.declared.listed.Listed.{Listed};
ghost use Rattle.branch_merge.specs.Listing.{AreApart};
ghost use Rattle.branch_merge.specs.Merged.{AreLight};

use branch_merge::{Listed, Top, gathered};
use hot_model::{CellRec, RecList};
use hot_units::limits::{MAX_ALL_MASS, MAX_RANKS};
use hot_units::{Body, body_of, covers};
use moments::{add, empty, of_body};
use morton_key::is_cell;
use std::alloc::{AllocError, Global};

/// A cell by its key, and the places and masses of its bodies.
pub type Cell<'a> = (u64, &'a [(u32, u32, u32, u32)]);

/// Whether a cell contains a body.
fn is_inside(cell: u64, b: &Body) -> bool
    requires cell { keys.IsCell cell }
    ensures value { result ≡ keys.contains cell b.now }
{
    covers(cell, b.key)
}

/// The record of a cell over bodies, if they are its own and not too heavy.
fn record_of(cell: &Cell<'_>) -> Option<CellRec> {
    let (key, bodies) = *cell;
    if !is_cell(key) {
        return None;
    }
    let mut rec = empty(key);
    for (x, y, z, mass) in bodies {
        let b = body_of(*x, *y, *z, *mass, 0)?;
        if !is_inside(key, &b) {
            return None;
        }
        let one = of_body(key, &b);
        if !covers(rec.key, one.key) || rec.count > 1000 || rec.mass + one.mass > MAX_ALL_MASS {
            return None;
        }
        add(&mut rec, &one);
    }
    Some(rec)
}

/// The list of the records of these cells.
pub fn list_of(alloc: Global, rows: &[Cell<'_>]) -> Result<RecList, AllocError> {
    let mut list = RecList::new(alloc);
    for row in rows {
        if let Some(rec) = record_of(row) {
            list.push(rec)?;
        }
    }
    Ok(list)
}

/// Whether a cell covers the keys of no listed record but that at a place.
fn is_alone(rec: &CellRec, place: usize, listed: &[Listed]) -> bool
    ensures { IsTrue result → (j : ℕ) (d : Listed) → j < length listed.now
        → keys.covers rec.now.key (get_or listed.now j d).rec.key ≡ true → place ≡ j }
{
    for (j, y) in listed.iter().enumerate() {
        let other = &y.rec;
        if covers(rec.key, other.key) {
            if place != j {
                return false;
            }
        }
    }
    true
}

/// Whether no listed record lies in the cell of another.
fn are_apart(listed: &[Listed]) -> bool
    ensures { IsTrue result → AreApart listed.now }
{
    for (i, x) in listed.iter().enumerate() {
        let rec = &x.rec;
        if !is_alone(rec, i, listed) {
            return false;
        }
    }
    true
}

/// Whether no record is empty, and counts and masses are within the limits.
fn are_light(listed: &[Listed]) -> bool
    ensures some { IsTrue result → All (λ x. 1 ≤ x.rec.count) listed.now }
    ensures light { IsTrue result → AreLight listed.now }
{
    let mut count = 0;
    let mut mass = 0;
    for x in listed {
        let rec = &x.rec;
        if rec.count == 0 {
            return false;
        }
        count += u64::from(rec.count);
        mass += rec.mass;
        if count > u64::from(u32::MAX) || mass > MAX_ALL_MASS {
            return false;
        }
    }
    true
}

/// The top of these lists, if they can be merged.
pub fn top_of(alloc: Global, lists: &[RecList]) -> Result<Option<Top>, AllocError> {
    if lists.len() > MAX_RANKS as usize {
        return Ok(None);
    }
    let listed = gathered(alloc, lists)?;
    if !are_apart(&listed) || !are_light(&listed) {
        return Ok(None);
    }
    Ok(Some(Top::merge(alloc, lists)?))
}
