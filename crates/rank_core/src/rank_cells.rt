ghost use Rattle.std.specs.Prelude.{◌≡◌, ◌<◌, ℕ, ◌||◌, leb, eqb, length};
ghost use Rattle.hot_units.specs.Limits.{max_level};
ghost use Rattle.hot_units.specs.Keys.{IsCell};
ghost use Rattle.hot_units.specs.Keys as keys;
ghost use Rattle.rank_model.specs.World.{World, record_in, bodies_in};
ghost use Rattle.rank_model.specs.Needs.{part_of};
ghost use Rattle.branch_merge.specs.Tops as tops;
ghost use Rattle.local_tree.specs.Pieces.{IsBetween};
ghost use Rattle.rank_core.specs.RankTree.{IsRankTree, IsShared};

use branch_merge::Top;
use defer_walk::Cells;
use hot_model::CellRec;
use hot_units::limits::MAX_LEVEL;
use hot_units::{Body, level};
use local_tree::LocalTree;
use morton_key::child;
use rank_model::Part;

/// The key of the root.
const ROOT: u64 = 1;

/// What a rank has of the tree over all bodies: the tree of its own piece, and the top that all
/// ranks share.
#[derive(Clone, Copy)]
pub(crate) struct RankCells<'a> {
    pub tree: &'a LocalTree,
    pub top: &'a Top,
    pub me: u32,
    pub leaf: u32,
}

impl<'a> RankCells<'a> {
    /// The record over all bodies of a cell that is a branch or a top cell, or has no bodies. Two
    /// binary searches.
    fn shared(&self, key: u64) -> Option<CellRec>
        requires cell { IsCell key }
        ensures value { (w : World) (q : ℕ)
            → IsRankTree w q self.now.me self.now.leaf self.now.tree.now self.now.top.now
            → IsShared w key → result ≡ record_in w key }
    {
        match self.top.get(key) {
            Some(cell) => Some(cell.rec),
            None => self.top.branch(key),
        }
    }

    /// Whether a cell with this record is a leaf.
    fn is_leaf(&self, rec: &CellRec) -> bool
        ensures value { result ≡ leb rec.now.count self.now.leaf
            || eqb (keys.level rec.now.key) max_level }
    {
        rec.count <= self.leaf || level(rec.key) == MAX_LEVEL
    }

    /// What a cell of the rank alone is.
    fn own_part(&self, key: u64) -> Part
        requires cell { IsCell key }
        requires between { IsBetween self.now.tree.now.left self.now.tree.now.right key }
        ensures value { (w : World) (q : ℕ)
            → IsRankTree w q self.now.me self.now.leaf self.now.tree.now self.now.top.now
            → 0 < length (bodies_in w key) → result ≡ part_of w q key }
    {
        match self.tree.rec(key) {
            Some(rec) => {
                if self.is_leaf(&rec) {
                    Part::Leaf
                } else {
                    Part::Inner
                }
            }
            None => Part::Inner,
        }
    }

    /// What a cell of several ranks is.
    fn top_part(&self, key: u64) -> Part
        requires cell { IsCell key }
        requires unowned { (p : ℕ) → tops.IsOwnerIn self.now.top.now p key → ⊥ }
        ensures value { (w : World) (q : ℕ)
            → IsRankTree w q self.now.me self.now.leaf self.now.tree.now self.now.top.now
            → 0 < length (bodies_in w key) → result ≡ part_of w q key }
    {
        match self.top.get(key) {
            Some(cell) => {
                if self.is_leaf(&cell.rec) {
                    Part::Spread
                } else {
                    Part::Inner
                }
            }
            None => Part::Inner,
        }
    }
}

impl<'a> Cells for RankCells<'a> {
    ghost stands = { λ c w q. IsRankTree w q c.me c.leaf c.tree.now c.top.now };

    fn root(&self) -> Option<CellRec> {
        self.shared(ROOT)
    }

    fn part(&self, key: u64) -> Part {
        // a cell with bodies is of this rank alone exactly where it is between
        if self.tree.is_between(key) {
            return self.own_part(key);
        }
        match self.top.owner(key) {
            Some(owner) => Part::Away(owner),
            None => self.top_part(key),
        }
    }

    fn child(&self, key: u64, digit: u32) -> Option<CellRec> {
        let below = child(key, digit)?;
        if self.tree.is_between(key) {
            self.tree.rec(below)
        } else {
            self.shared(below)
        }
    }

    fn body(&self, key: u64, i: u32) -> Option<Body> {
        self.tree.body(key, i)
    }
}
