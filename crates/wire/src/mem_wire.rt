// A wire in memory.
ghost use Rattle.std.specs.Prelude.{◌≡◌, ◌++◌, ◌∷◌, [], ◌+◌, ◌-◌, ◌<◌, ◌≤◌, ◌⊎◌, length, map};
ghost use Rattle.std.specs.Prelude.{remove, slice_get, true, if◌then◌else◌, IfOk, OnOk, OnErr};
ghost use Rattle.std.specs.Prelude.{IfSome, OnSome, Some, MatchOption, MatchResult};
ghost use Rattle.std.specs.List.{position};
ghost use Rattle.std.specs.VecDeque.{deque_len};
ghost use Rattle.wire.specs.Desk.{letters_in, rounds_in, begun, posted, Takes, turned};
ghost use Rattle.wire.specs.Desk.{rounded};
ghost use Rattle.cell_mail.specs.Notes.{note_of};
ghost use Rattle.wire.specs.Policies.{new_state, desk_of, mem_eager, seed_of, place_of};
ghost use Rattle.wire.specs.Policies.{more_of, draw_after, without_at, shut_state};
ghost use Rattle.wire.specs.Starving.{is_to_another};

use crate::wire::Turn;
use crate::{Entry, Log, Note, PostRefused, Wire};
use cell_mail::Letter;
use hot_units::{Mail, drawn, next_state};
use std::alloc::{AllocError, Global};
use std::collections::VecDeque;
use std::marker::Model;

// A letter that waits, with the note that the log gets when it is taken.
#[derive(Drop)]
pub(crate) struct Waiting {
    letter: Letter,
    note: Note,
    pub ghost of_it: { note ≡ note_of letter },
}

/// A wire in memory. Its mail picks the letter of each `take` and the answer of each `more`:
///
/// - `Prompt`: the oldest letter, and always more;
/// - `Last`: the newest letter, and always more;
/// - `Single`: the oldest letter, and never more;
/// - `Seeded`: one draw each, from a generator that begins at the seed.
///
/// So it is eager under `Prompt` and `Last` alone. A new wire is free and empty, with the mail
/// `Prompt`.
#[derive(Drop)]
pub struct MemWire {
    waiting: VecDeque<Waiting>,
    log: Log,
    turn: Turn,
    mail: Mail,
    draw: u64,
    alloc: Global,
}

impl Model for MemWire {
    ghost use Rattle.std.specs.Prelude.{◌≤◌, ◌+◌, map, length};
    ghost use Rattle.wire.specs.Desk.{letters_in, rounds_in};
    ghost use Rattle.wire.specs.Policies.{MemState};

    ghost Value = { MemState };

    ghost view = { λ w. record {
      pending = map (λ h. h.letter) w.waiting.items;
      log = w.log.newest_first;
      turn = w.turn;
      mail = w.mail;
      draw = w.draw;
    } };

    ghost invariant = { λ w. (rounds_in w.log.newest_first ≤ letters_in w.log.newest_first + 1)
        × (length w.waiting.items + letters_in w.log.newest_first + 1
        ≤ w.log.room + rounds_in w.log.newest_first) };
}

impl MemWire {
    /// A wire that is free and empty, with the mail `Prompt`. The error is want of memory alone.
    pub fn new(alloc: Global) -> Result<MemWire, AllocError>
        ensures fresh { IfOk result (λ w. w ≡ new_state) }
    {
        Ok(MemWire {
            waiting: VecDeque::new(alloc),
            log: Log::new(alloc)?,
            turn: Turn::Free,
            mail: Mail::Prompt,
            draw: 0,
            alloc,
        })
    }

    /// What happened since the last `begin`.
    pub fn log(&self) -> &Log
        ensures log { result.now.newest_first ≡ self.now.log }
    {
        &self.log
    }

    /// The place of the oldest pending letter that is not to this rank; None exactly where all are
    /// to it.
    pub(crate) fn oldest_to_another(&self, rank: u32) -> Option<usize>
        ensures place { result ≡ position (is_to_another rank) self.now.pending }
    {
        self.waiting
            .iter()
            .position(|waiting| waiting.letter.to() != rank)
    }

    /// Takes the letter at a place out of the pending ones.
    pub(crate) fn take_at(&mut self, place: usize) -> Letter
        requires within { place < length self.old.pending }
        ensures letter { slice_get self.old.pending place ≡ Some result }
        ensures left { self.new ≡ without_at self.old place result }
    {
        let Some(Waiting { letter, note }) = self.waiting.remove(place) else {
            unreachable!()
        };
        self.log.add(Entry::Taken(note));
        self.turn = Turn::Used;
        letter
    }

    /// Gives no more letters in this round.
    pub(crate) fn shut(&mut self)
        ensures shut { self.new ≡ shut_state self.old }
    {
        self.turn = Turn::Shut;
    }
}

/// The place of the letter that the next `take` gives, and the state of the draws after it.
fn place_and_draw(mail: Mail, draw: u64, count: usize) -> (usize, u64)
    requires some { 0 < count }
    ensures place { result.0 ≡ place_of mail draw count }
    ensures within { result.0 < count }
    ensures draw { result.1 ≡ draw_after mail draw }
{
    match mail {
        Mail::Prompt | Mail::Single => (0, draw),
        Mail::Last => (count - 1, draw),
        Mail::Seeded(_) => (drawn(draw) as usize % count, next_state(draw)),
    }
}

/// Whether the next `more` is true, and the state of the draws after it.
fn more_and_draw(mail: Mail, draw: u64) -> (bool, u64)
    ensures choice { result.0 ≡ more_of mail draw }
    ensures draw { result.1 ≡ draw_after mail draw }
{
    match mail {
        Mail::Prompt | Mail::Last => (true, draw),
        Mail::Single => (false, draw),
        Mail::Seeded(_) => {
            let state = next_state(draw);
            (state < 1 << 63, state)
        }
    }
}

/// How many entries the log may still get: one for each pending letter, and the rounds to come.
fn entries_to_come(log: &Log, pending: usize) -> Option<usize>
    requires rounds { rounds_in log.now.newest_first ≤ letters_in log.now.newest_first + 1 }
    ensures count { IfSome result
        (λ n. n + rounds_in log.now.newest_first ≡ pending + letters_in log.now.newest_first + 1) }
{
    let rounds = log.letters().checked_add(1)? - log.rounds();
    pending.checked_add(rounds as usize)
}

impl Wire for MemWire {
    ghost desk = { desk_of };

    fn begin(&mut self, mail: Mail)
        requires quiet { self.old.pending ≡ [] }
        ensures fresh { desk_of self.new ≡ begun (desk_of self.old) mail }
        ensures draw { self.new.draw ≡ seed_of mail }
    {
        self.log.clear();
        self.turn = Turn::Free;
        self.mail = mail;
        self.draw = match mail {
            Mail::Prompt | Mail::Last | Mail::Single => 0,
            Mail::Seeded(seed) => seed,
        };
    }

    fn post(&mut self, letter: Letter) -> Result<(), PostRefused>
        ensures posted_or_unchanged { MatchResult result
            (λ _. desk_of self.new ≡ posted (desk_of self.old) letter)
            (λ e. (e.letter ≡ letter) × (desk_of self.new ≡ desk_of self.old)) }
        ensures draw { self.new.draw ≡ self.old.draw }
    {
        let to_come = entries_to_come(&self.log, self.waiting.len());
        let Some(more) = to_come.and_then(|n| n.checked_add(3)) else {
            return Err(PostRefused { letter });
        };
        let Ok(copy) = letter.copy(self.alloc) else {
            return Err(PostRefused { letter });
        };
        let Ok(note) = Note::of(self.alloc, &letter) else {
            return Err(PostRefused { letter });
        };
        if self.waiting.reserve(1).is_err() || self.log.reserve(more).is_err() {
            return Err(PostRefused { letter });
        }
        self.log.add(Entry::Posted(copy));
        self.waiting.push_back_reserved(Waiting { letter, note });
        Ok(())
    }

    fn pending(&self) -> usize {
        self.waiting.len()
    }

    fn take(&mut self) -> Option<Letter>
        requires free { self.old.turn ≡ Turn.Free }
        ensures taken_or_none { MatchOption result
            ((self.old.pending ≡ []) × (desk_of self.new ≡ desk_of self.old))
            (λ l. Takes (desk_of self.old) l (desk_of self.new)) }
        ensures place { IfSome result
            (λ l. slice_get self.old.pending
            (place_of self.old.mail self.old.draw (length self.old.pending)) ≡ Some l) }
        ensures order { OnSome result
            (self.new.pending
            ≡ remove self.old.pending
            (place_of self.old.mail self.old.draw (length self.old.pending))) }
        ensures draw { MatchOption result (self.new.draw ≡ self.old.draw)
            (λ _. self.new.draw ≡ draw_after self.old.mail self.old.draw) }
    {
        if self.waiting.is_empty() {
            return None;
        }
        let (place, draw) = place_and_draw(self.mail, self.draw, self.waiting.len());
        let letter = self.take_at(place);
        self.draw = draw;
        Some(letter)
    }

    fn more(&mut self) -> bool
        requires used { self.old.turn ≡ Turn.Used }
        ensures turn { desk_of self.new
            ≡ turned (desk_of self.old) (if result then Turn.Free else Turn.Shut) }
        ensures eager { mem_eager self.old.mail ≡ true → result ≡ true }
        ensures choice { result ≡ more_of self.old.mail self.old.draw }
        ensures draw { self.new.draw ≡ draw_after self.old.mail self.old.draw }
    {
        let (more, draw) = more_and_draw(self.mail, self.draw);
        self.draw = draw;
        self.turn = if more { Turn::Free } else { Turn::Shut };
        more
    }

    fn round(&mut self)
        requires over { (self.old.pending ≡ []) ⊎ (self.old.turn ≡ Turn.Shut) }
        requires room { rounds_in self.old.log ≤ letters_in self.old.log }
        ensures ended { desk_of self.new ≡ rounded (desk_of self.old) }
        ensures draw { self.new.draw ≡ self.old.draw }
    {
        self.log.add(Entry::Round);
        self.turn = Turn::Free;
    }

    fn letters(&self) -> u64 {
        self.log.letters()
    }
}
