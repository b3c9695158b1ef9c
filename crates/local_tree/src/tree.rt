ghost use Rattle.std.specs.Prelude.{◌≡◌, ◌<◌, ◌≤◌, ◌^◌, ℕ, true, cond, eqb, [], ◌∷◌, ◌++◌, length};
ghost use Rattle.std.specs.Prelude.{map, filter, slice_get, IsTrue, ◌↔◌, IfOk, IfSome};
ghost use Rattle.hot_units.specs.Limits.{max_all_mass, max_level};
ghost use Rattle.hot_units.specs.Keys.{IsCell};
ghost use Rattle.hot_units.specs.Keys as keys;
ghost use Rattle.hot_units.specs.Order.{IsInOrder};
ghost use Rattle.hot_units.specs.Bodies.{mass_of};
ghost use Rattle.hot_model.specs.Trees as trees;
ghost use Rattle.hot_model.specs.Cells.{cells_at};
ghost use Rattle.rank_model.specs.Answers as answers;
ghost use Rattle.rank_model.specs.Homes as homes;
ghost use Rattle.morton_key.specs.Ranges as ranges;
ghost use Rattle.morton_key.specs.Ranges.{IsBodyKey};
ghost use Rattle.local_tree.specs.Pieces.{IsBetween};

use crate::list::{listed, push_some};
use crate::places::{body_in, child_of, front, places};
use crate::record::find;
use crate::spans::record_in;
use crate::table::table_of;
use hot_model::{Answer, CellRec, RecList};
use hot_units::limits::MAX_LEVEL;
use hot_units::{Body, covers, level};
use morton_key::{first_key, last_key, parent};
use std::alloc::{AllocError, Global};
use std::marker::Model;

/// The tree of a piece. Clauses see the bodies of the piece, the nearest keys on either side of it
/// and the leaf limit.
#[derive(Drop)]
pub struct LocalTree {
    bodies: Vec<Body>,
    recs: Vec<CellRec>,
    left: Option<u64>,
    right: Option<u64>,
    leaf: u32,
    alloc: Global,
}

impl Model for LocalTree {
    ghost use Rattle.local_tree.specs.Pieces.{PieceValue, IsLocal};

    ghost Value = { PieceValue };

    ghost view = { λ t. record {
      bodies = t.bodies.items;
      left = t.left;
      right = t.right;
      leaf = t.leaf;
    } };

    ghost invariant = { λ t. IsLocal t.bodies.items t.recs.items t.left t.right };
}

/// Whether a cell does not contain a neighbouring key, if there is one.
fn keeps_out(cell: u64, neighbour: Option<u64>) -> bool
    requires cell { IsCell cell }
    requires neighbour { IfSome neighbour IsBodyKey }
    ensures value { result ≡ homes.keeps_out cell neighbour }
{
    match neighbour {
        Some(key) => !covers(cell, key),
        None => true,
    }
}

/// Whether all body keys of a cell are greater than a neighbouring key, if there is one.
fn is_above(cell: u64, neighbour: Option<u64>) -> bool
    requires cell { IsCell cell }
    ensures value { IsTrue result ↔ IfSome neighbour (λ k. k < ranges.first_key cell) }
{
    match neighbour {
        Some(key) => key < first_key(cell),
        None => true,
    }
}

/// Whether all body keys of a cell are smaller than a neighbouring key, if there is one.
fn is_below(cell: u64, neighbour: Option<u64>) -> bool
    requires cell { IsCell cell }
    ensures value { IsTrue result ↔ IfSome neighbour (λ k. ranges.last_key cell < k) }
{
    match neighbour {
        Some(key) => last_key(cell) < key,
        None => true,
    }
}

impl LocalTree {
    /// The tree of a piece: of bodies in order by key and row, fewer than 2^32 and with a mass of
    /// at most 2^40 together. `left` and `right` are the nearest keys of other bodies on either
    /// side, if there are any; `leaf` is the number of bodies up to which a cell is a leaf. A
    /// refusal is want of memory; the tree takes at most 400 bytes a body.
    pub fn build(
        alloc: Global,
        piece: &[Body],
        left: Option<u64>,
        right: Option<u64>,
        leaf: u32,
    ) -> Result<LocalTree, AllocError>
        requires order { IsInOrder piece.now }
        requires left { IfSome left IsBodyKey }
        requires right { IfSome right IsBodyKey }
        requires few { length piece.now < 2 ^ 32 }
        requires light { mass_of piece.now ≤ max_all_mass }
        ensures value { IfOk result (λ t.
            t ≡ record { bodies = piece.now; left = left; right = right; leaf = leaf }) }
    {
        let bodies = Vec::from_slice(alloc, piece)?;
        let recs = table_of(alloc, &bodies, leaf)?;
        Ok(LocalTree {
            bodies,
            recs,
            left,
            right,
            leaf,
            alloc,
        })
    }

    /// The record of a cell over the bodies of the piece: their count and mass, and the sums of
    /// mass times coordinate. None exactly where the piece has no body there. A cell in the table
    /// (those that a walk meets, up to 19 for ten bodies) is found by one binary search; of any
    /// other the bodies are found by two more and added up. It takes no memory.
    pub fn rec(&self, key: u64) -> Option<CellRec>
        requires cell { IsCell key }
        ensures value { result ≡ trees.record_at self.now.bodies key }
    {
        if let Some(rec) = find(&self.recs, key) {
            return Some(rec);
        }
        record_in(&self.bodies, key)
    }

    /// Whether a cell is the piece's own: it has a body of the piece, and contains neither
    /// neighbouring key. It takes no memory.
    pub fn is_home(&self, key: u64) -> bool
        requires cell { IsCell key }
        ensures value { result ≡ homes.is_home self.now.bodies self.now.left self.now.right key }
    {
        let (from, to) = places(&self.bodies, key);
        if from == to {
            return false;
        }
        keeps_out(key, self.left) && keeps_out(key, self.right)
    }

    /// Whether the body keys of a cell are all between the two neighbouring keys. Of a cell that
    /// has bodies it tells whether they are all of the piece. It takes no memory.
    pub fn is_between(&self, key: u64) -> bool
        requires cell { IsCell key }
        ensures value { IsTrue result ↔ IsBetween self.now.left self.now.right key }
    {
        is_above(key, self.left) && is_below(key, self.right)
    }

    /// The body of the piece at a place, counted from 0, among those in a cell, in order; None
    /// exactly past the last. One binary search. It takes no memory.
    pub fn body(&self, key: u64, i: u32) -> Option<Body>
        requires cell { IsCell key }
        ensures value { result ≡ slice_get (trees.inside self.now.bodies key) i }
    {
        body_in(&self.bodies, key, i)
    }

    /// What the piece answers for one of its own cells: the bodies, in order, where there are at
    /// most as many as the leaf limit or the cell is of level 21, else the records of the children
    /// that have bodies, by ascending key. A refusal is want of memory.
    pub fn answer(&self, key: u64) -> Result<Answer, AllocError>
        requires cell { IsCell key }
        requires home { homes.is_home self.now.bodies self.now.left self.now.right key ≡ true }
        ensures value { IfOk result (λ a. a ≡ answers.answer_at self.now.leaf self.now.bodies key) }
    {
        let (from, to) = places(&self.bodies, key);
        if to - from <= self.leaf as usize {
            return Ok(Answer::Bodies(listed(self.alloc, &self.bodies[from..to])?));
        }
        if level(key) == MAX_LEVEL {
            return Ok(Answer::Bodies(listed(self.alloc, &self.bodies[from..to])?));
        }
        Ok(Answer::Children(self.children(key)?))
    }

    /// The records of a cell's children that have bodies, by ascending key.
    fn children(&self, key: u64) -> Result<RecList, AllocError>
        requires cell { IsCell key }
        requires upper { keys.level key < max_level }
        ensures value { IfOk result (λ l. l ≡ answers.children_at self.now.bodies key) }
    {
        let mut list = RecList::new(self.alloc);
        for digit in 0..8u64 {
            push_some(&mut list, self.rec(child_of(key, digit)))?;
        }
        Ok(list)
    }

    /// The records of the piece's branches, the outermost of its own cells (Warren and Salmon,
    /// 1993), by ascending key, so level by level. One pass over the bodies a level. A refusal is
    /// want of memory.
    pub fn branches(&self) -> Result<RecList, AllocError>
        ensures value { IfOk result (λ l.
            l ≡ homes.home_branches self.now.bodies self.now.left self.now.right) }
    {
        let mut list = RecList::new(self.alloc);
        for level in 0..=MAX_LEVEL {
            self.add_level(&mut list, level)?;
        }
        Ok(list)
    }

    /// Adds the records of the piece's branches at a level: body by body the cell that has it,
    /// where it is a new one.
    fn add_level(&self, list: &mut RecList, level: u32) -> Result<(), AllocError>
        requires level { level ≤ max_level }
        ensures value { IfOk result (λ _. list.new ≡ list.old ++ map
            (trees.cell_record self.now.bodies)
            (filter (homes.is_home_branch self.now.bodies self.now.left self.now.right)
            (cells_at self.now.bodies level))) }
    {
        let mut last = 0;
        for b in &self.bodies {
            let cell = front(b.key, level);
            self.add_branch(list, cell, last)?;
            last = cell;
        }
        Ok(())
    }

    /// Adds the record of a cell with bodies, if it is a branch of the piece and not the cell
    /// before.
    fn add_branch(&self, list: &mut RecList, cell: u64, before: u64) -> Result<(), AllocError>
        requires cell { IsCell cell }
        requires some { 0 < length (trees.inside self.now.bodies cell) }
        requires above { (cell ≡ 1 → ⊥)
            → 0 < length (trees.inside self.now.bodies (keys.parent cell)) }
        ensures value { IfOk result (λ _. list.new ≡ list.old ++ map
            (trees.cell_record self.now.bodies)
            (filter (homes.is_home_branch self.now.bodies self.now.left self.now.right)
            (cond (eqb cell before) [] (cell ∷ [])))) }
    {
        if cell == before {
            return Ok(());
        }
        if !self.is_branch(cell) {
            return Ok(());
        }
        push_some(list, self.rec(cell))
    }

    /// Whether a cell with bodies is one of the piece's own, and the cell above is not.
    fn is_branch(&self, cell: u64) -> bool
        requires cell { IsCell cell }
        requires some { 0 < length (trees.inside self.now.bodies cell) }
        requires above { (cell ≡ 1 → ⊥)
            → 0 < length (trees.inside self.now.bodies (keys.parent cell)) }
        ensures value { result
            ≡ homes.is_home_branch self.now.bodies self.now.left self.now.right cell }
    {
        if !self.is_own(cell) {
            return false;
        }
        match parent(cell) {
            Some(above) => !self.is_own(above),
            None => true,
        }
    }

    /// Whether a cell with bodies is one of the piece's own.
    fn is_own(&self, cell: u64) -> bool
        requires cell { IsCell cell }
        requires some { 0 < length (trees.inside self.now.bodies cell) }
        ensures value { result ≡ homes.is_home self.now.bodies self.now.left self.now.right cell }
    {
        keeps_out(cell, self.left) && keeps_out(cell, self.right)
    }
}
