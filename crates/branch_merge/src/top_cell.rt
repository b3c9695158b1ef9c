ghost use Rattle.std.specs.Prelude.{◌≡◌, ◌<◌, IfOk};
ghost use Rattle.hot_units.specs.Limits.{max_level};
ghost use Rattle.hot_units.specs.Keys.{IsCell};
ghost use Rattle.hot_units.specs.Keys as keys;
ghost use Rattle.branch_merge.specs.Listing.{AreApart};
ghost use Rattle.branch_merge.specs.Tops as tops;
ghost use Rattle.branch_merge.specs.Merged.{AreInOrder, AreSorted, AreBelow, AreLight, IsMerged};
ghost use Rattle.branch_merge.specs.Merged.{sums_of};

use crate::Listed;
use crate::above::keys_above;
use crate::run::run;
use arrayvec::ArrayVec;
use hot_model::CellRec;
use std::alloc::{AllocError, Global};

/// A cell that properly contains listed ones: its record, the sum of theirs, and the keys of its
/// children that have listed records in them, by ascending key. Of the branch lists of all ranks
/// these are the cells with bodies of two or more ranks, with their records over all bodies, and
/// each child is such a cell or a branch.
#[derive(Drop)]
pub struct TopCell {
    pub rec: CellRec,
    pub children: ArrayVec<u64, 8>,
}

/// The record of a cell that is made of these records.
fn added_up(cell: u64, own: &[Listed]) -> CellRec
    requires cell { IsCell cell }
    requires light { AreLight own.now }
    requires below { AreBelow cell own.now }
    ensures value { result ≡ sums_of cell own.now }
{
    let mut rec = moments::empty(cell);
    for x in own {
        moments::add(&mut rec, &x.rec);
    }
    rec
}

/// The children of a top cell that have listed records in them, given the records in the cell.
fn children(cell: u64, own: &[Listed]) -> ArrayVec<u64, 8>
    requires sorted { AreSorted own.now }
    requires below { AreBelow cell own.now }
    requires cell { IsCell cell }
    requires upper { keys.level cell < max_level }
    ensures value { result.items ≡ tops.children_of own.now cell }
{
    let mut children = ArrayVec::new();
    for digit in 0..8u64 {
        let child = 8 * cell + digit;
        let (from, to) = run(own, child);
        if from < to {
            children.push(child);
        }
    }
    children
}

/// A top cell with its record and children.
fn top_cell(listed: &[Listed], cell: u64) -> TopCell
    requires sorted { AreSorted listed.now }
    requires apart { AreApart listed.now }
    requires light { AreLight listed.now }
    requires top { tops.IsTopOf listed.now cell }
    ensures value { tops.IsTopCell listed.now cell result }
{
    let (from, to) = run(listed, cell);
    let own = &listed[from..to];
    TopCell {
        rec: added_up(cell, own),
        children: children(cell, own),
    }
}

/// All cells above listed records in Morton order, by ascending key.
pub(crate) fn top_cells(alloc: Global, listed: &[Listed]) -> Result<Vec<TopCell>, AllocError>
    requires order { AreInOrder listed.now }
    requires apart { AreApart listed.now }
    requires light { AreLight listed.now }
    ensures merged { IfOk result (λ v. IsMerged listed.now v.items) }
{
    let keys = keys_above(alloc, listed)?;
    let mut cells = Vec::with_capacity(alloc, keys.len())?;
    for key in &keys {
        cells.push(top_cell(listed, *key))?;
    }
    Ok(cells)
}
