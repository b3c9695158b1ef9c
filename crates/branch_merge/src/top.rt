ghost use Rattle.std.specs.Prelude.{◌≡◌, ◌<◌, ◌≤◌, ℕ, List, length, get_or, All, Contains, false};
ghost use Rattle.std.specs.Prelude.{true, IfOk, MatchOption};
ghost use Rattle.std.specs.List.Sorted.{IsPermutation};
ghost use Rattle.hot_units.specs.Keys.{IsCell, covers};
ghost use Rattle.branch_merge.specs.Listing as listing;
ghost use Rattle.branch_merge.specs.Tops as tops;
ghost use Rattle.branch_merge.specs.Merged.{IsHolder};
ghost use Rattle.branch_merge.specs.declared.listed.Listed.{Listed};

use crate::find::find;
use crate::listed::gathered;
use crate::order::in_morton_order;
use crate::run::count_to;
use crate::top_cell::top_cells;
use crate::{Listed, TopCell};
use hot_model::{CellRec, RecList};
use hot_units::covers;
use morton_key::first_key;
use std::alloc::{AllocError, Global};
use std::marker::Model;

/// The top of the tree that all ranks share. Clauses see the listed records, each with its rank;
/// what the calls answer is defined on them.
///
/// The listed records stand in Morton order, and the top cells by ascending key.
#[derive(Drop)]
pub struct Top {
    listed: Vec<Listed>,
    cells: Vec<TopCell>,
}

impl Model for Top {
    ghost use Rattle.std.specs.Prelude.{List};
    ghost use Rattle.branch_merge.specs.declared.listed.Listed.{Listed};
    ghost use Rattle.branch_merge.specs.Merged.{IsMerged};

    ghost Value = { List Listed };

    ghost view = { λ t. t.listed.items };

    ghost invariant = { λ t. IsMerged t.listed.items t.cells.items };
}

impl Top {
    /// Merges the branch lists of at most 64 ranks; list `q` is that of rank `q`. The top cells are
    /// the cells that properly contain a listed one. Time is that of sorting the listed cells and
    /// the levels above them. A refusal is want of memory.
    pub fn merge(alloc: Global, lists: &[RecList]) -> Result<Top, AllocError>
        requires lists { listing.CanMerge lists.now }
        ensures merged { IfOk result (λ t. IsPermutation (listing.all_listed lists.now) t) }
    {
        let listed = in_morton_order(gathered(alloc, lists)?);
        let cells = top_cells(alloc, &listed)?;
        Ok(Top { listed, cells })
    }

    /// The top cell of a key, with its record and its children; None exactly where the key is no
    /// top cell's. A binary search. It takes no memory.
    pub fn get(&self, key: u64) -> Option<&TopCell>
        ensures cell { MatchOption result (tops.IsTopOf self.now key → ⊥)
            (λ cell. tops.IsTopOf self.now key × tops.IsTopCell self.now key cell.now) }
    {
        find(&self.cells, key)
    }

    /// The listed record whose cell contains or is this cell.
    fn holder(&self, key: u64) -> Option<Listed>
        requires cell { IsCell key }
        ensures holder { MatchOption result (All (λ x. covers x.rec.key key ≡ false) self.now)
            (λ x. IsHolder self.now key x) }
    {
        let to = count_to(&self.listed, first_key(key));
        if to == 0 {
            return None;
        }
        let x = &self.listed[to - 1];
        let rec = &x.rec;
        if covers(rec.key, key) { Some(*x) } else { None }
    }

    /// The listed record of a cell; None exactly where it is not listed. A binary search. It takes
    /// no memory.
    pub fn branch(&self, key: u64) -> Option<CellRec>
        requires cell { IsCell key }
        ensures listed { MatchOption result (All (λ x. x.rec.key ≡ key → ⊥) self.now)
            (λ r. (r.key ≡ key) × ((x : Listed) × Contains self.now x × (x.rec ≡ r))) }
    {
        match self.holder(key) {
            Some(x) if x.rec.key == key => Some(x.rec),
            _ => None,
        }
    }

    /// The rank of the listed cell that contains or is this cell; None exactly where there is none.
    /// A binary search. It takes no memory.
    pub fn owner(&self, key: u64) -> Option<u32>
        requires cell { IsCell key }
        ensures owner { MatchOption result ((q : ℕ) → tops.IsOwnerIn self.now q key → ⊥)
            (λ q. tops.IsOwnerIn self.now q key) }
    {
        self.holder(key).map(|x| x.rank)
    }

    /// The i-th top cell by ascending key, counted from 0; None exactly past the last. It takes no
    /// memory.
    pub fn at(&self, i: usize) -> Option<&TopCell>
        ensures cell { (keys : List ℕ) × tops.AreTops self.now keys
            × MatchOption result (length keys ≤ i)
            (λ cell. (i < length keys) × tops.IsTopCell self.now (get_or keys i 0) cell.now) }
    {
        self.cells.get(i)
    }
}
