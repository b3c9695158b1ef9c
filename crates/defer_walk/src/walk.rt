ghost use Rattle.std.specs.Prelude.{◌≡◌, ◌≢◌, ℕ, ◌<◌, ◌≤◌, Bool, true, false, List, [], ◌∷◌, ◌++◌};
ghost use Rattle.std.specs.Prelude.{Some, None, IfOk, OnOk, OnErr, IsErr, IfSome, IsSome, IsNone};
ghost use Rattle.std.specs.Prelude.{IsTrue, ◌⊎◌, ◌↔◌, length, map, sum_by, drop, All, Contains};
ghost use Rattle.std.specs.Prelude.{slice_get};
ghost use Rattle.std.specs.List.Sorted.{IsStrictlyIncreasing};
ghost use Rattle.hot_units.specs.Values.{BodyValue};
ghost use Rattle.hot_units.specs.Keys.{parent};
ghost use Rattle.rank_model.specs.World.{World, IsGood, piece as piece_of};
ghost use Rattle.rank_model.specs.Branches.{IsBranch, IsOwner};
ghost use Rattle.rank_model.specs.Needs.{Needs, needed};
ghost use Rattle.rank_model.specs.Answers.{true_answer};
ghost use Rattle.defer_walk.specs.Asked.{asked_keys, filled, Extends};
ghost use Rattle.defer_walk.specs.Standing.{StandsFor, Waits, IsSameWalk, IsSameStage, IsNewAsk};
ghost use Rattle.defer_walk.specs.Standing.{IsRemote, IsProgress, given_of, answer_of, meaning};
ghost use Rattle.defer_walk.specs.Standing.{fold_in, opened_by, pairs_in};

use crate::asks::Asks;
use crate::cells::Cells;
use crate::progress::{Ask, Progress, WalkResult, progress_of};
use crate::stages::{go_on, nothing_added};
use crate::tally::Tally;
use hot_model::{Answered, Visit};
use hot_units::Body;
use std::alloc::{AllocError, Global};
use std::marker::Model;

/// The walk of one rank's piece through the tree of all bodies. After an advance all pairs that are
/// left wait, and of these the next one looks only at those whose cell has woken since: its answer
/// came.
#[derive(Drop)]
pub struct Walk<V: Visit> {
    alloc: Global,
    me: u32,
    visit: V,
    piece: Vec<Body>,
    accs: Vec<V::Acc>,
    left: u64,
    asks: Asks,
    woken: Vec<u64>,
    given: usize,
    tally: Tally,
    started: bool,
    advanced: bool,
    starved: bool,
}

impl<V: Visit> Model for Walk<V> {
    ghost use Rattle.std.specs.Prelude.{◌≡◌, ◌≤◌, ◌+◌, true, false, [], length, vec_capacity};
    ghost use Rattle.defer_walk.specs.Standing.{WalkState, left_by};
    ghost use Rattle.defer_walk.specs.Waiting.{unanswered_cells, AreWoken};

    ghost Value = { WalkState V V.Acc };

    ghost view = { λ p. record {
      me = p.me;
      visit = p.visit;
      piece = p.piece.items;
      accs = p.accs.items;
      pairs = left_by p.advanced (length p.piece.items) p.asks.pairs;
      slots = p.asks.slots;
      given = p.given;
      tally = p.tally;
      started = p.started;
      advanced = p.advanced;
      starved = p.starved;
    } };

    ghost invariant = { λ p. (p.given ≤ length p.asks.slots)
        × (p.starved ≡ false
        → (p.left ≡ length (left_by p.advanced (length p.piece.items) p.asks.pairs))
        × (unanswered_cells p.asks.slots + length p.woken.items ≤ vec_capacity p.woken)
        × (p.advanced ≡ true → AreWoken p.woken.items p.asks.slots p.asks.pairs)
        × (p.advanced ≡ false → p.asks.pairs ≡ [])) };
}

impl<V: Visit> Walk<V> {
    /// A walk of a rank's bodies, not started. It stands for every good world in which they are the
    /// rank's piece.
    pub fn new(alloc: Global, me: u32, visit: V, piece: &[Body]) -> Result<Walk<V>, AllocError>
        requires fits { (w : World) × IsGood w × (piece.now ≡ piece_of w me) }
        ensures stands { IfOk result
            (λ walk. (w : World) → IsGood w → piece.now ≡ piece_of w me
            → StandsFor V.zero_of V.adds V.opens_by V.Acc.seen_of w walk) }
        ensures fresh { IfOk result
            (λ walk. (walk.me ≡ me) × (walk.visit ≡ visit) × (walk.piece ≡ piece.now)
            × (walk.started ≡ false) × (walk.starved ≡ false)) }
    {
        let accs = nothing_added(alloc, &visit, piece.len())?;
        Ok(Walk {
            alloc,
            me,
            visit,
            piece: piece.to_vec(alloc)?,
            accs,
            left: 0,
            asks: Asks::new(alloc, piece.len())?,
            woken: Vec::new(alloc),
            given: 0,
            tally: Tally::new(alloc),
            started: false,
            advanced: true,
            starved: false,
        })
    }

    /// Lists each body with the root. Where memory runs out the walk is starved and not started. It
    /// may be called on any starved walk too, which answers want of memory.
    pub fn start<C: Cells>(&mut self, cells: &C) -> Result<(), AllocError>
        requires fresh { self.old.starved ≡ false → self.old.started ≡ false }
        requires fits { (w : World) × C.stands cells.now w self.old.me
            × StandsFor V.zero_of V.adds V.opens_by V.Acc.seen_of w self.old }
        ensures stands { (w : World) → C.stands cells.now w self.old.me
            → StandsFor V.zero_of V.adds V.opens_by V.Acc.seen_of w self.old
            → StandsFor V.zero_of V.adds V.opens_by V.Acc.seen_of w self.new }
        ensures same { IsSameWalk self.old self.new }
        ensures given { (self.new.slots ≡ self.old.slots) × (self.new.given ≡ self.old.given) }
        ensures ok { OnOk result
            ((self.new.started ≡ true) × (self.new.advanced ≡ false) × (self.new.starved ≡ false)) }
        ensures err { OnErr result
            ((self.new.started ≡ self.old.started) × (self.new.starved ≡ true)) }
        ensures starved { self.old.starved ≡ true → IsErr result }
    {
        let _ = cells;
        if self.starved {
            return Err(AllocError);
        }
        self.started = true;
        self.advanced = false;
        self.left = self.piece.len() as u64;
        Ok(())
    }

    /// Works until every pair that is left waits for an absent cell, and answers how many do. Where
    /// memory runs out the walk is starved. It may be called on any starved walk too, which answers
    /// want of memory.
    pub fn advance<C: Cells>(&mut self, cells: &C) -> Result<Progress, AllocError>
        requires started { self.old.starved ≡ false → self.old.started ≡ true }
        requires fits { (w : World) × C.stands cells.now w self.old.me
            × StandsFor V.zero_of V.adds V.opens_by V.Acc.seen_of w self.old }
        ensures stands { (w : World) → C.stands cells.now w self.old.me
            → StandsFor V.zero_of V.adds V.opens_by V.Acc.seen_of w self.old
            → StandsFor V.zero_of V.adds V.opens_by V.Acc.seen_of w self.new }
        ensures same { IsSameWalk self.old self.new }
        ensures given { (self.new.given ≡ self.old.given)
            × (given_of self.new ≡ given_of self.old) }
        ensures extends { Extends self.old.slots self.new.slots }
        ensures ok { OnOk result
            ((self.new.started ≡ true) × (self.new.advanced ≡ true) × (self.new.starved ≡ false)) }
        ensures progress { IfOk result (λ p. IsProgress p self.new.pairs) }
        ensures waits { OnOk result
            ((w : World) → C.stands cells.now w self.old.me
            → StandsFor V.zero_of V.adds V.opens_by V.Acc.seen_of w self.old
            → All
            (λ p. Waits (meaning V.zero_of V.adds V.opens_by V.Acc.seen_of self.new.visit)
            w self.new.me self.new.piece self.new.slots p
            × (answer_of self.new p.rec.key ≡ None)) (pairs_in w self.new.pairs)) }
        ensures newly { OnOk result
            ((w : World) → C.stands cells.now w self.old.me
            → StandsFor V.zero_of V.adds V.opens_by V.Acc.seen_of w self.old
            → All (IsNewAsk self.old.advanced w self.old.slots self.old.pairs)
            (drop (length self.old.slots) self.new.slots)) }
        ensures err { OnErr result
            ((self.new.started ≡ self.old.started) × (self.new.starved ≡ true)) }
        ensures starved { self.old.starved ≡ true → IsErr result }
    {
        if self.starved {
            return Err(AllocError);
        }
        if self.advanced && self.woken.is_empty() {
            return Ok(progress_of(self.left));
        }
        let worked = go_on(
            self.alloc,
            self.advanced,
            &self.visit,
            cells,
            &self.piece,
            &mut self.accs,
            &mut self.tally,
            &mut self.asks,
            &mut self.woken,
        );
        match worked {
            Err(e) => {
                self.starved = true;
                Err(e)
            }
            Ok(left) => {
                self.left = left;
                self.advanced = true;
                Ok(progress_of(left))
            }
        }
    }

    /// The next cell that became asked and was not yet given by this call; None exactly where there
    /// is none. It takes no memory.
    pub fn asked(&mut self) -> Option<Ask>
        ensures some { IfSome result
            (λ a. (given_of self.new ≡ given_of self.old ++ a.key ∷ [])
            × (Contains (given_of self.old) a.key → ⊥)) }
        ensures needed { IfSome result
            (λ a. (w : World) → StandsFor V.zero_of V.adds V.opens_by V.Acc.seen_of w self.old
            → IsOwner w a.owner a.key × Needs (V.opens_by self.old.visit) w self.old.me a.key
            × (IsBranch w a.owner a.key ⊎ IsSome (answer_of self.old (parent a.key)))) }
        ensures remote { IfSome result
            (λ a. (w : World) → StandsFor V.zero_of V.adds V.opens_by V.Acc.seen_of w self.old
            → IsRemote w self.old.me a.owner a.key) }
        ensures none { IsNone result ↔ (given_of self.old ≡ asked_keys self.old.slots) }
        ensures unchanged { IsNone result → self.new ≡ self.old }
        ensures stands { (w : World)
            → StandsFor V.zero_of V.adds V.opens_by V.Acc.seen_of w self.old
            → StandsFor V.zero_of V.adds V.opens_by V.Acc.seen_of w self.new }
        ensures same { IsSameWalk self.old self.new × IsSameStage self.old self.new }
    {
        if self.given < self.asks.len() {
            let ask = self.asks.at(self.given);
            self.given += 1;
            Some(ask)
        } else {
            None
        }
    }

    /// Stores the owner's answer for a cell that was given by `asked` and not supplied before. It
    /// takes no memory.
    pub fn supply(&mut self, item: Answered)
        requires given { Contains (given_of self.old) item.key }
        requires absent { answer_of self.old item.key ≡ None }
        requires fits { (w : World) × StandsFor V.zero_of V.adds V.opens_by V.Acc.seen_of w self.old
            × (item.answer ≡ true_answer w item.key) }
        ensures stands { (w : World)
            → StandsFor V.zero_of V.adds V.opens_by V.Acc.seen_of w self.old
            → item.answer ≡ true_answer w item.key
            → StandsFor V.zero_of V.adds V.opens_by V.Acc.seen_of w self.new }
        ensures value { self.new
            ≡ record self.old { slots = filled self.old.slots item.key item.answer } }
        ensures there { answer_of self.new item.key ≡ Some item.answer }
        ensures others { (k : ℕ) → k ≢ item.key → answer_of self.new k ≡ answer_of self.old k }
        ensures given { given_of self.new ≡ given_of self.old }
    {
        let Answered { key, answer } = item;
        let _ = self.woken.push(key);
        self.asks.fill(key, answer);
    }

    /// Whether the walk was started and no pair is left. A starved walk is never done. It takes no
    /// memory.
    pub fn done(&self) -> bool
        ensures value { IsTrue result
            ↔ ((self.now.started ≡ true) × (self.now.starved ≡ false) × (self.now.pairs ≡ [])) }
    {
        self.started && !self.starved && self.left == 0
    }

    /// What the walk gives once it is done.
    pub fn into_parts(self) -> Result<WalkResult<V::Acc>, AllocError>
        requires done { (self.started ≡ true) × (self.starved ≡ false) × (self.pairs ≡ []) }
        ensures folds { IfOk result
            (λ r. (w : World) → StandsFor V.zero_of V.adds V.opens_by V.Acc.seen_of w self
            → r.accs.items
            ≡ map
            (fold_in (meaning V.zero_of V.adds V.opens_by V.Acc.seen_of self.visit) w)
            self.piece) }
        ensures opened { IfOk result
            (λ r. (w : World) → StandsFor V.zero_of V.adds V.opens_by V.Acc.seen_of w self
            → r.opened
            ≡ sum_by
            (λ b. length
            (opened_by
            (meaning V.zero_of V.adds V.opens_by V.Acc.seen_of self.visit) w
            b)) self.piece) }
        ensures asks { IfOk result
            (λ r. (w : World) → StandsFor V.zero_of V.adds V.opens_by V.Acc.seen_of w self
            → r.asks ≡ length (needed (V.opens_by self.visit) w self.me)) }
        ensures cells { IfOk result
            (λ r. (w : World) → StandsFor V.zero_of V.adds V.opens_by V.Acc.seen_of w self → (k : ℕ)
            → Contains r.cells k
            ↔ ((b : BodyValue) × Contains self.piece b
            × Contains
            (opened_by (meaning V.zero_of V.adds V.opens_by V.Acc.seen_of self.visit)
            w b) k)) }
        ensures ascending { IfOk result (λ r. IsStrictlyIncreasing r.cells) }
    {
        let cells = self.tally.keys(self.alloc)?;
        Ok(WalkResult {
            accs: self.accs,
            opened: self.tally.opened(),
            asks: self.asks.len() as u64,
            cells,
        })
    }
}
