#![tactic(auto, unfolding(crate::specs::Standing::StandsIn, crate::specs::Seats::seat_of, crate::specs::Seats::visit_of,),)]

ghost use Rattle.std.specs.Prelude.{◌≡◌, ◌<◌, ◌≤◌, ◌↔◌, true, false, IfSome, IfOk, OnOk, OnErr};
ghost use Rattle.std.specs.Prelude.{IsErr, IsTrue};
ghost use Rattle.std.specs.List.Sorted.{IsStrictlyIncreasing};
ghost use Rattle.hot_units.specs.Limits.{max_ranks, max_leaf};
ghost use Rattle.rank_model.specs.World.{World};
ghost use Rattle.rank_core.specs.Standing.{HoldsSomewhere, WhereHolds, StillHolds, StandsIn};
ghost use Rattle.rank_core.specs.Standing.{MadeIn, FitsAWorld, HasWalked, IsAwake, IsHere};
ghost use Rattle.rank_core.specs.Standing.{meant_by};
ghost use Rattle.rank_core.specs.Seat.{HeardAll, IsFresh, Moves, refused, with_letter};
ghost use Rattle.rank_core.specs.Seats.{seat_at, seat_of, visit_of, OnlyStarves, IsMade};
ghost use Rattle.rank_core.specs.Seats.{IsFinished, Popped, Stepped, GoesOn, FitsALetter};
ghost use Rattle.rank_core.specs.Seats.{StandsByLetter, IsItsLetter, AreFolds, AreNeeded};
ghost use Rattle.rank_core.specs.Seats.{AreOpened, AreOpenedCells};

use crate::heard::Heard;
use crate::place::Place;
use crate::reading::read;
use crate::state::State;
use crate::walking::{walk_on, wanted};
use cell_mail::Letter;
use defer_walk::{Walk, WalkResult};
use hot_model::Visit;
use hot_units::Body;
use std::alloc::{AllocError, Global};
use std::collections::VecDeque;
use std::marker::Model;

/// One rank of a run. Clauses see it as a seat: what other ranks see of it.
#[derive(Drop)]
pub struct Rank<V: Visit> {
    state: State,
    walk: Walk<V>,
}

impl<V: Visit> Model for Rank<V> {
    ghost use Rattle.rank_core.specs.Standing.{RankState};

    ghost Value = { RankState V V.Acc };

    ghost view = { λ r. record { state = r.state; walk = r.walk } };
}

/// One step of a rank that is not starved.
fn work<V: Visit>(state: &mut State, walk: &mut Walk<V>) -> Result<(), AllocError>
    requires fits { HoldsSomewhere V.Visit V.Acc.Seen state.old walk.old }
    requires awake { IsAwake state.old walk.old }
    ensures holds { StillHolds V.Visit V.Acc.Seen state.old walk.old state.new walk.new }
    ensures awake { OnOk result (IsAwake state.new walk.new) }
    ensures visit { walk.new.visit ≡ walk.old.visit }
    ensures place { state.new.place ≡ state.old.place }
    ensures walked { WhereHolds V.Visit V.Acc.Seen state.old walk.old
        (λ w. OnOk result (HeardAll (seat_at state.new walk.new)
        → HasWalked (meant_by V.Visit V.Acc.Seen walk.new.visit) w walk.new)) }
    ensures moves { WhereHolds V.Visit V.Acc.Seen state.old walk.old
        (λ w. OnOk result (Moves (V.opens_by walk.old.visit) w
        (seat_at state.old walk.old) (seat_at state.new walk.new))) }
{
    state.begin()?;
    let asked = read(state, walk)?;
    state.answer(asked)?;
    walk_on(state, walk)?;
    let asking = wanted(state.alloc, walk)?;
    state.ask(asking)
}

impl<V: Visit> Rank<V> {
    /// Rank `me` of so many, from 1 to 64, counted from 0: with its piece by ascending key and row,
    /// the greatest key of a lower rank and the least key of a higher one, and the leaf limit, 1 to
    /// 64 bodies. It has done nothing yet, and stands for every good world in which all this is so;
    /// at least one there must be. It copies the piece; the tree of the piece is built in the first
    /// step. A refusal is want of memory.
    pub fn new(
        alloc: Global,
        me: u32,
        ranks: u32,
        piece: &[Body],
        left: Option<u64>,
        right: Option<u64>,
        leaf: u32,
        visit: V,
    ) -> Result<Rank<V>, AllocError>
        requires me { me < ranks }
        requires ranks { ranks ≤ max_ranks }
        requires leaf { (1 ≤ leaf) × (leaf ≤ max_leaf) }
        requires fits { (w : World) × IsHere w me ranks piece.now left right leaf }
        ensures stands { IfOk result
            (MadeIn V.Visit V.Acc.Seen me ranks piece.now left right leaf) }
        ensures fresh { IfOk result (IsMade me ranks leaf visit) }
    {
        let place = Place {
            me,
            ranks,
            left,
            right,
            leaf,
        };
        let walk = Walk::new(alloc, me, visit, piece)?;
        let state = State {
            alloc,
            place,
            piece: Vec::from_slice(alloc, piece)?,
            tree: None,
            heard: Heard::new(alloc, ranks)?,
            top: None,
            inbox: Vec::new(alloc),
            outbox: VecDeque::new(alloc),
            starved: false,
        };
        Ok(Rank { state, walk })
    }

    /// One step. The first tells the branches of the rank to each other one. Every step reads the
    /// whole inbox, answers all that is asked there, and, once the branches of all ranks were read,
    /// starts the walk or goes on with it and asks the owners for the cells that it lacks (after
    /// Warren and Salmon, 1993: latency is hidden by asking for remote cells in batches while the
    /// walk goes on). The outbox gets branches, then answers, then asks, each by ascending receiver
    /// and at most one letter of a kind for each. Where memory is refused the rank is starved, and
    /// from then on `step` and `take` refuse and change nothing.
    pub fn step(&mut self) -> Result<(), AllocError>
        requires fits { FitsAWorld V.Visit V.Acc.Seen self.old }
        ensures step { Stepped V.opens_by (StandsIn V.Visit V.Acc.Seen) self.old self.new }
        ensures walked { OnOk result (GoesOn V.Visit V.Acc.Seen self.old self.new) }
        ensures starved { (seat_of self.old).starved ≡ true → IsErr result }
        ensures idle { (seat_of self.old).starved ≡ true → self.new ≡ self.old }
        ensures ok { OnOk result ((seat_of self.new).starved ≡ false) }
        ensures err { OnErr result ((seat_of self.new).starved ≡ true) }
    {
        if self.state.starved {
            return Err(AllocError);
        }
        let done = work(&mut self.state, &mut self.walk);
        self.state.starved = done.is_err();
        done
    }

    /// Takes the oldest letter out of the outbox; None exactly where it is empty. It takes no
    /// memory.
    pub fn outbox(&mut self) -> Option<Letter>
        ensures popped { Popped (StandsIn V.Visit V.Acc.Seen) self.old result self.new }
        ensures truth { IfSome result (IsItsLetter V.Visit V.Acc.Seen self.old) }
    {
        self.state.outbox.pop_front()
    }

    /// Puts a letter into the inbox, behind those that are there. It is to this rank and true: the
    /// first branches of its sender; or it asks for cells for which no letter of that sender in the
    /// inbox asks; or it answers for cells that this rank asked for and that were not answered
    /// before. Where memory is refused the letter is dropped and the rank is starved, and all else
    /// stays.
    pub fn take(&mut self, letter: Letter) -> Result<(), AllocError>
        requires fits { FitsALetter V.Visit V.Acc.Seen self.old letter }
        requires mine { letter.to ≡ (seat_of self.old).me }
        requires fresh { IsFresh (seat_of self.old) letter }
        ensures kept { StandsByLetter V.Visit V.Acc.Seen self.old letter self.new }
        ensures ok { OnOk result (seat_of self.new ≡ with_letter (seat_of self.old) letter) }
        ensures err { OnErr result (seat_of self.new ≡ refused (seat_of self.old)) }
        ensures left { OnErr result (OnlyStarves self.old self.new) }
        ensures visit { visit_of self.new ≡ visit_of self.old }
        ensures starved { (seat_of self.old).starved ≡ true → IsErr result }
        ensures idle { (seat_of self.old).starved ≡ true → self.new ≡ self.old }
    {
        if self.state.starved {
            return Err(AllocError);
        }
        let _bytes = letter.bytes();
        if self.state.inbox.push(letter).is_err() {
            self.state.starved = true;
            return Err(AllocError);
        }
        Ok(())
    }

    /// Whether the rank is finished: the branches of all ranks were read, the walk is done, and
    /// inbox and outbox are empty. It takes no memory.
    pub fn finished(&self) -> bool
        ensures value { IsTrue result ↔ IsFinished self.now }
    {
        self.state.heard.all()
            && self.walk.done()
            && self.state.inbox.is_empty()
            && self.state.outbox.is_empty()
    }

    /// What a rank that is finished found: the accumulators of its bodies, in the order of the
    /// piece; how many cells they opened, body by body; how many cells of other ranks were asked
    /// for, each once; and the keys of the opened cells, ascending. A refusal is want of memory.
    pub fn into_results(self) -> Result<WalkResult<V::Acc>, AllocError>
        requires finished { IsFinished self }
        ensures folds { IfOk result (λ r. AreFolds V.Visit V.Acc.Seen self r.accs.items) }
        ensures asks { IfOk result (λ r. AreNeeded V.Visit V.Acc.Seen self r.asks) }
        ensures opened { IfOk result (λ r. AreOpened V.Visit V.Acc.Seen self r.opened) }
        ensures cells { IfOk result (λ r. AreOpenedCells V.Visit V.Acc.Seen self r.cells) }
        ensures ascending { IfOk result (λ r. IsStrictlyIncreasing r.cells) }
    {
        self.walk.into_parts()
    }

    /// Whether the rank was refused memory. It takes no memory.
    pub fn starved(&self) -> bool
        ensures value { result ≡ (seat_of self.now).starved }
    {
        self.state.starved
    }

    /// The number of this rank. It takes no memory.
    pub fn me(&self) -> u32
        ensures value { result ≡ (seat_of self.now).me }
    {
        self.state.place.me
    }
}
