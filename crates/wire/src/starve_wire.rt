// A wire in memory that starves one rank.
ghost use Rattle.std.specs.Prelude.{◌≡◌, ◌⊎◌, ◌≤◌, [], remove, slice_get, true, false};
ghost use Rattle.std.specs.Prelude.{if◌then◌else◌, IfOk, IfSome, OnSome, Some, MatchOption};
ghost use Rattle.std.specs.Prelude.{MatchResult};
ghost use Rattle.wire.specs.Desk.{letters_in, rounds_in, begun, posted, Takes, turned};
ghost use Rattle.wire.specs.Desk.{rounded};
ghost use Rattle.wire.specs.Starving.{new_starve, never_eager, starve_desk, starve_place};

use crate::wire::Turn;
use crate::{Log, MemWire, PostRefused, Wire};
use cell_mail::Letter;
use hot_units::Mail;
use std::alloc::{AllocError, Global};
use std::marker::Model;

/// A wire in memory that holds back the letters to one rank as long as it may: it gives the oldest
/// letter that is to another rank, and the oldest of all where there is none, and one letter a
/// round. It keeps the mail of `begin` and does not follow it, so it is eager under none.
///
/// The rank may be any number: one that no letter is to starves nobody. A new wire is free and
/// empty, with the mail `Prompt`.
#[derive(Drop)]
pub struct StarveWire {
    wire: MemWire,
    rank: u32,
}

impl Model for StarveWire {
    ghost use Rattle.wire.specs.Starving.{StarveState};

    ghost Value = { StarveState };

    ghost view = { λ w. record {
      pending = w.wire.pending;
      log = w.wire.log;
      turn = w.wire.turn;
      mail = w.wire.mail;
      rank = w.rank;
    } };
}

impl StarveWire {
    /// A wire that starves this rank, free and empty. The error is want of memory alone.
    pub fn new(alloc: Global, rank: u32) -> Result<StarveWire, AllocError>
        ensures fresh { IfOk result (λ w. w ≡ new_starve rank) }
    {
        Ok(StarveWire {
            wire: MemWire::new(alloc)?,
            rank,
        })
    }

    /// What happened since the last `begin`.
    pub fn log(&self) -> &Log
        ensures log { result.now.newest_first ≡ self.now.log }
    {
        self.wire.log()
    }
}

impl Wire for StarveWire {
    ghost desk = { starve_desk };

    fn begin(&mut self, mail: Mail)
        requires quiet { self.old.pending ≡ [] }
        ensures fresh { starve_desk self.new ≡ begun (starve_desk self.old) mail }
        ensures rank { self.new.rank ≡ self.old.rank }
    {
        self.wire.begin(mail);
    }

    fn post(&mut self, letter: Letter) -> Result<(), PostRefused>
        ensures posted_or_unchanged { MatchResult result
            (λ _. starve_desk self.new ≡ posted (starve_desk self.old) letter)
            (λ e. (e.letter ≡ letter) × (starve_desk self.new ≡ starve_desk self.old)) }
        ensures rank { self.new.rank ≡ self.old.rank }
    {
        self.wire.post(letter)
    }

    fn pending(&self) -> usize {
        self.wire.pending()
    }

    fn take(&mut self) -> Option<Letter>
        requires free { self.old.turn ≡ Turn.Free }
        ensures taken_or_none { MatchOption result
            ((self.old.pending ≡ []) × (starve_desk self.new ≡ starve_desk self.old))
            (λ l. Takes (starve_desk self.old) l (starve_desk self.new)) }
        ensures place { IfSome result (λ l. slice_get self.old.pending
            (starve_place self.old.rank self.old.pending) ≡ Some l) }
        ensures order { OnSome result (self.new.pending
            ≡ remove self.old.pending (starve_place self.old.rank self.old.pending)) }
        ensures rank { self.new.rank ≡ self.old.rank }
    {
        if self.wire.pending() == 0 {
            return None;
        }
        let place = self.wire.oldest_to_another(self.rank).unwrap_or(0);
        Some(self.wire.take_at(place))
    }

    fn more(&mut self) -> bool
        requires used { self.old.turn ≡ Turn.Used }
        ensures turn { starve_desk self.new
            ≡ turned (starve_desk self.old) (if result then Turn.Free else Turn.Shut) }
        ensures eager { never_eager self.old.mail ≡ true → result ≡ true }
        ensures never { result ≡ false }
        ensures rank { self.new.rank ≡ self.old.rank }
    {
        self.wire.shut();
        false
    }

    fn round(&mut self)
        requires over { (self.old.pending ≡ []) ⊎ (self.old.turn ≡ Turn.Shut) }
        requires room { rounds_in self.old.log ≤ letters_in self.old.log }
        ensures ended { starve_desk self.new ≡ rounded (starve_desk self.old) }
        ensures rank { self.new.rank ≡ self.old.rank }
    {
        self.wire.round();
    }

    fn letters(&self) -> u64 {
        self.wire.letters()
    }
}
