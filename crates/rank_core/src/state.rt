ghost use Rattle.std.specs.Prelude.{◌≡◌, List, true, not, map, IsSome, IfSome, IfOk, OnOk, OnErr};
ghost use Rattle.rank_model.specs.World.{World};
ghost use Rattle.rank_core.specs.Part.{IsPartOf, WherePart, Adds, AreAsked, AreAsking, AreAllHeard};
ghost use Rattle.rank_core.specs.Part.{SameBut, OnlyPosts, OnlyMerges, is_there};
ghost use Rattle.cell_mail.specs.Letters.{LetterValue};
ghost use Rattle.rank_core.specs.RankTree.{IsRankTree};
ghost use Rattle.rank_core.specs.Seat.{each_below, answers_for, asks_for};
ghost use Rattle.rank_core.specs.Known.{others_heard};
ghost use Rattle.rank_core.specs.Sending.{tells, AskSame};

use crate::heard::Heard;
use crate::place::Place;
use crate::posting::{put_answers, put_asks, put_branches};
use crate::rank_cells::RankCells;
use crate::request::{Request, by_key};
use branch_merge::Top;
use cell_mail::Letter;
use hot_units::Body;
use local_tree::LocalTree;
use std::alloc::{AllocError, Global};
use std::collections::VecDeque;

/// What a rank holds beside its walk: its place and piece, the tree of its piece, the branch lists
/// that it heard, the top once all of them were heard, and its letters.
#[derive(Drop)]
pub(crate) struct State {
    pub alloc: Global,
    pub place: Place,
    pub piece: Vec<Body>,
    pub tree: Option<LocalTree>,
    pub heard: Heard,
    pub top: Option<Top>,
    pub inbox: Vec<Letter>,
    pub outbox: VecDeque<Letter>,
    pub starved: bool,
}

impl State {
    /// Builds the tree of the piece and tells the branches to all other ranks, unless that was
    /// done. A refusal is want of memory.
    pub fn begin(&mut self) -> Result<(), AllocError>
        requires fits { (w : World) × IsPartOf w self.old }
        ensures part { WherePart self.old (λ w. IsPartOf w self.new) }
        ensures same { SameBut self.old self.new }
        ensures built { OnOk result (IsSome self.new.tree) }
        ensures heard { others_heard self.new ≡ others_heard self.old }
        ensures all { AreAllHeard self.old → AreAllHeard self.new }
        ensures sent { WherePart self.old
            (λ w. OnOk result (Adds self.old self.new (tells w self.old))) }
    {
        if self.tree.is_some() {
            return Ok(());
        }
        let place = self.place;
        let tree = LocalTree::build(self.alloc, &self.piece, place.left, place.right, place.leaf)?;
        let list = tree.branches()?;
        put_branches(self.alloc, &place, &list, &mut self.outbox)?;
        self.heard.hear(place.me, list);
        self.tree = Some(tree);
        Ok(())
    }

    /// Answers the requests of other ranks.
    pub fn answer(&mut self, requests: Vec<Request>) -> Result<(), AllocError>
        requires fits { (w : World) × IsPartOf w self.old
            × AreAsked w self.old.place.me requests.items }
        requires built { IsSome self.old.tree }
        ensures part { WherePart self.old
            (λ w. AreAsked w self.old.place.me requests.items → IsPartOf w self.new) }
        ensures same { OnlyPosts self.old self.new }
        ensures sent { (w : World) (inbox : List LetterValue) → IsPartOf w self.old
            → AreAsked w self.old.place.me requests.items → AskSame requests.items inbox
            → OnOk result (Adds self.old self.new
            (each_below (answers_for w self.old.place.me inbox) self.old.place.ranks)) }
    {
        let requests = by_key(requests);
        match &self.tree {
            Some(tree) => put_answers(self.alloc, &self.place, tree, &requests, &mut self.outbox),
            None => Ok(()),
        }
    }

    /// Asks other ranks for the cells of the requests.
    pub fn ask(&mut self, requests: Vec<Request>) -> Result<(), AllocError>
        requires fits { (w : World) × IsPartOf w self.old
            × AreAsking w self.old.place.me requests.items }
        ensures part { WherePart self.old
            (λ w. AreAsking w self.old.place.me requests.items → IsPartOf w self.new) }
        ensures same { OnlyPosts self.old self.new }
        ensures sent { (w : World) → IsPartOf w self.old
            → AreAsking w self.old.place.me requests.items
            → OnOk result (Adds self.old self.new (each_below
            (asks_for w self.old.place.me (map (λ r. r.key) requests.items))
            self.old.place.ranks)) }
    {
        let requests = by_key(requests);
        put_asks(self.alloc, &self.place, &requests, &mut self.outbox)
    }

    /// What the rank has of the tree over all bodies; None where the tree of its piece or the top
    /// is not there.
    pub fn cells(&self) -> Option<RankCells<'_>>
        ensures there { IsSome self.now.tree → is_there self.now.top ≡ true → IsSome result }
        ensures stands { (w : World) → IsPartOf w self.now → IfSome result
            (λ c. IsRankTree w self.now.place.me c.me c.leaf c.tree.now c.top.now) }
    {
        match (&self.tree, &self.top) {
            (Some(tree), Some(top)) => Some(RankCells {
                tree,
                top,
                me: self.place.me,
                leaf: self.place.leaf,
            }),
            _ => None,
        }
    }

    /// Merges the branch lists of all ranks into the top, unless that was done; whether it was done
    /// now.
    pub fn merge(&mut self) -> Result<bool, AllocError>
        requires fits { (w : World) × IsPartOf w self.old }
        requires all { AreAllHeard self.old }
        ensures part { WherePart self.old (λ w. IsPartOf w self.new) }
        ensures same { OnlyMerges self.old self.new }
        ensures ok { IfOk result (λ first. (is_there self.new.top ≡ true)
            × (first ≡ not (is_there self.old.top))) }
        ensures err { OnErr result (self.new.top ≡ self.old.top) }
    {
        if self.top.is_some() {
            return Ok(false);
        }
        let top = Top::merge(self.alloc, &self.heard.lists)?;
        self.top = Some(top);
        Ok(true)
    }
}
