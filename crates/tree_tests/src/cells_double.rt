//! A double of what a rank has of the tree: the whole list of bodies.
ghost use Rattle.std.specs.Prelude.{◌≡◌, ◌<◌, ◌&&◌, if◌then◌else◌, IfOk, length, filter, eqb};
ghost use Rattle.hot_units.specs.Limits.{max_level};
ghost use Rattle.hot_units.specs.Keys as keys;
ghost use Rattle.hot_units.specs.Keys.{IsCell};
ghost use Rattle.rank_model.specs.World.{IsGood, record_in, piece as piece_of};
ghost use Rattle.rank_model.specs.Needs.{part_by};
ghost use Rattle.rank_model.specs.Answers.{true_answer, child_records};
ghost use Rattle.defer_walk.specs.Listing.{world_of, rank_by};

use crate::samples::bodies_of;
use defer_walk::Cells;
use hot_model::{Answer, CellRec, RecList};
use hot_units::limits::MAX_LEVEL;
use hot_units::{Body, BodyList, covers, level};
use moments::of_inside;
use morton_key::child;
use rank_model::Part;
use std::alloc::{AllocError, Global};
use std::marker::Model;
use std::process::Abort;

/// The whole list of bodies, cut into ranks, as one rank sees it: what lies in the other ranks
/// alone is away.
#[derive(Drop)]
pub struct CellsDouble {
    bodies: Vec<Body>,
    cuts: Vec<u64>,
    leaf: u32,
    me: u32,
}

impl Model for CellsDouble {
    ghost use Rattle.std.specs.Prelude.{◌<◌, length};
    ghost use Rattle.defer_walk.specs.Listing.{ListingValue, IsListing};

    ghost Value = { ListingValue };

    ghost view = { λ k. record {
      bodies = k.bodies.items;
      cuts = k.cuts.items;
      leaf = k.leaf;
      me = k.me;
    } };

    ghost invariant = { λ k. IsListing k.bodies.items × (length k.cuts.items < 64) };
}

impl CellsDouble {
    /// The bodies of these rows, in key order, cut where a next rank begins, as rank `me` sees them.
    pub fn new(
        rt: &impl Abort,
        alloc: Global,
        rows: &[[u32; 4]],
        cuts: &[u64],
        leaf: u32,
        me: u32,
    ) -> CellsDouble
        ensures me { result.me ≡ me }
    {
        let bodies = bodies_of(rt, alloc, rows);
        let cuts = cuts.to_vec(alloc).expect(rt, "memory");
        assert!(rt; cuts.len() < 64);
        CellsDouble {
            bodies,
            cuts,
            leaf,
            me,
        }
    }

    /// The rank that sees the list.
    pub fn rank_at_hand(&self) -> u32
        ensures value { result ≡ self.now.me }
        ensures good { IsGood (world_of self.now) }
    {
        self.me
    }

    /// The rank of a key.
    #[tactic(auto, using(crate::proofs::Listings::on_members))]
    fn rank(&self, key: u64) -> u32
        ensures value { result ≡ rank_by self.now.cuts key }
    {
        let mut rank = 0;
        for cut in &self.cuts {
            if *cut <= key {
                rank += 1;
            }
        }
        rank
    }

    /// The bodies of the rank, in order.
    #[tactic(auto, using(crate::proofs::Listings::on_members))]
    pub fn piece(&self, alloc: Global) -> Result<Vec<Body>, AllocError>
        ensures value { IfOk result (λ v. v.items ≡ piece_of (world_of self.now) self.now.me) }
    {
        let mut piece = Vec::new(alloc);
        for b in &self.bodies {
            if self.rank(b.key) == self.me {
                piece.push(*b)?;
            }
        }
        Ok(piece)
    }

    /// Whether a body is in a cell.
    fn has(&self, key: u64, b: &Body) -> bool
        requires cell { IsCell key }
        ensures value { result ≡ keys.contains key b.now }
    {
        covers(key, b.key)
    }

    /// The record of a cell, if it has bodies.
    fn record(&self, key: u64) -> Option<CellRec>
        requires cell { IsCell key }
        ensures value { result ≡ record_in (world_of self.now) key }
    {
        let rec = of_inside(key, &self.bodies);
        if rec.count == 0 { None } else { Some(rec) }
    }

    /// The record of a child of a cell, if it has bodies.
    fn record_below(&self, key: u64, digit: u32) -> Option<CellRec>
        requires cell { IsCell key }
        requires above { keys.level key < max_level }
        requires digit { digit < 8 }
        ensures value { result ≡ record_in (world_of self.now) (keys.child key digit) }
    {
        match child(key, digit) {
            Some(below) => self.record(below),
            None => None,
        }
    }

    /// The bodies of a cell.
    #[tactic(auto, using(crate::proofs::Listings::on_members))]
    fn inside(&self, alloc: Global, key: u64) -> Result<BodyList, AllocError>
        requires cell { IsCell key }
        ensures value { IfOk result (λ l. l ≡ filter (keys.contains key) self.now.bodies) }
    {
        let mut inside = BodyList::new(alloc);
        for b in &self.bodies {
            if self.has(key, b) {
                inside.push(*b)?;
            }
        }
        Ok(inside)
    }

    /// The records of the children of a cell that have bodies.
    fn children(&self, alloc: Global, key: u64) -> Result<RecList, AllocError>
        requires cell { IsCell key }
        requires parted { keys.level key < max_level }
        ensures value { IfOk result (λ l. l ≡ child_records (world_of self.now) key) }
    {
        let mut children = RecList::new(alloc);
        for digit in 0..8 {
            if let Some(rec) = self.record_below(key, digit) {
                children.push(rec)?;
            }
        }
        Ok(children)
    }

    /// What the owner of a cell answers for it.
    pub fn answer(&self, alloc: Global, key: u64) -> Result<Answer, AllocError>
        requires cell { IsCell key }
        ensures value { IfOk result (λ a. a ≡ true_answer (world_of self.now) key) }
    {
        let inside = self.inside(alloc, key)?;
        if inside.len() <= self.leaf as usize || level(key) == MAX_LEVEL {
            Ok(Answer::Bodies(inside))
        } else {
            Ok(Answer::Children(self.children(alloc, key)?))
        }
    }
}

/// What a cell is for a rank, by whether its bodies are all of one rank, by this rank, and by
/// whether it is a leaf.
fn part_of(one: bool, owner: u32, me: u32, leaf: bool) -> Part
    ensures value { result ≡ part_by one owner me leaf }
{
    match (one, leaf) {
        (true, _) if owner != me => Part::Away(owner),
        (true, true) => Part::Leaf,
        (false, true) => Part::Spread,
        _ => Part::Inner,
    }
}

/// The rank of the first body, by how many came before.
fn first_of(count: u32, rank: u32, owner: u32) -> u32
    ensures value { result ≡ if eqb count 0 then rank else owner }
{
    if count == 0 { rank } else { owner }
}

/// Whether all bodies are of one rank, with one more.
fn still_one(one: bool, rank: u32, owner: u32) -> bool
    ensures value { result ≡ one && eqb rank owner }
{
    one && rank == owner
}

impl Cells for CellsDouble {
    ghost stands = { λ k w me. (w ≡ world_of k) × (me ≡ k.me) };

    fn root(&self) -> Option<CellRec> {
        self.record(1)
    }

    fn part(&self, key: u64) -> Part {
        let mut owner = 0;
        let mut one = true;
        let mut count: u32 = 0;
        for b in &self.bodies {
            if self.has(key, b) {
                let rank = self.rank(b.key);
                owner = first_of(count, rank, owner);
                one = still_one(one, rank, owner);
                count += 1;
            }
        }
        let leaf = count <= self.leaf || level(key) == MAX_LEVEL;
        part_of(one, owner, self.me, leaf)
    }

    fn child(&self, key: u64, digit: u32) -> Option<CellRec> {
        self.record_below(key, digit)
    }

    fn body(&self, key: u64, i: u32) -> Option<Body> {
        let mut before = 0;
        for b in &self.bodies {
            if self.has(key, b) {
                if before == i {
                    return Some(*b);
                }
                before += 1;
            }
        }
        None
    }
}
