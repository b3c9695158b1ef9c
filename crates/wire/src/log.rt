// The log of a wire.
ghost use Rattle.std.specs.Prelude.{◌≡◌, ◌∷◌, [], ◌+◌, ◌-◌, ◌≤◌, ◌<◌, length, reverse, slice_get};
ghost use Rattle.std.specs.Prelude.{IfOk, OnOk, OnErr, option_copied};
ghost use Rattle.wire.specs.Desk.{letters_in, rounds_in};

use crate::Entry;
use std::alloc::{AllocError, Global};
use std::marker::Model;

/// What happened on a wire since its last `begin`, in order.
#[derive(Drop)]
pub struct Log {
    entries: Vec<Entry>,
    letters: u64,
    rounds: u64,
}

impl Model for Log {
    ghost use Rattle.std.specs.Prelude.{◌≡◌, ◌-◌, ◌≤◌, reverse, vec_len, vec_capacity};
    ghost use Rattle.wire.specs.Desk.{LogView, letters_in, rounds_in};

    ghost Value = { LogView };

    ghost view = { λ l. record {
      newest_first = reverse l.entries.items;
      room = vec_capacity l.entries - vec_len l.entries;
    } };

    ghost invariant = { λ l. (l.letters ≡ letters_in (reverse l.entries.items))
        × (l.rounds ≡ rounds_in (reverse l.entries.items)) × (l.letters ≤ vec_len l.entries)
        × (l.rounds ≤ vec_len l.entries) };
}

impl Log {
    /// An empty log, with room for one entry.
    pub(crate) fn new(alloc: Global) -> Result<Log, AllocError>
        ensures empty { IfOk result (λ l. l.newest_first ≡ []) }
        ensures room { IfOk result (λ l. 1 ≤ l.room) }
    {
        Ok(Log {
            entries: Vec::with_capacity(alloc, 1)?,
            letters: 0,
            rounds: 0,
        })
    }

    /// How many entries there are.
    pub fn len(&self) -> usize
        ensures length { result ≡ length self.now.newest_first }
    {
        self.entries.len()
    }

    /// The entry at a place, counted from 0 at the oldest; None exactly past the newest.
    pub fn at(&self, i: usize) -> Option<&Entry>
        ensures entry { option_copied result ≡ slice_get (reverse self.now.newest_first) i }
    {
        self.entries.get(i)
    }

    /// How many letters were posted.
    pub fn letters(&self) -> u64
        ensures count { result ≡ letters_in self.now.newest_first }
    {
        self.letters
    }

    /// How many rounds ended.
    pub fn rounds(&self) -> u64
        ensures count { result ≡ rounds_in self.now.newest_first }
    {
        self.rounds
    }

    /// Forgets all entries, and keeps their room.
    pub(crate) fn clear(&mut self)
        ensures empty { self.new.newest_first ≡ [] }
        ensures room { self.old.room + rounds_in self.old.newest_first ≤ self.new.room }
    {
        self.entries.clear();
        self.letters = 0;
        self.rounds = 0;
    }

    /// Makes room for so many entries more.
    pub(crate) fn reserve(&mut self, more: usize) -> Result<(), AllocError>
        ensures entries { self.new.newest_first ≡ self.old.newest_first }
        ensures ok { OnOk result (more ≤ self.new.room) }
        ensures kept { self.old.room ≤ self.new.room }
    {
        self.entries.reserve(more)?;
        Ok(())
    }

    /// Adds an entry, for which there is room.
    pub(crate) fn add(&mut self, entry: Entry)
        requires room { 0 < self.old.room }
        ensures entry { self.new.newest_first ≡ entry ∷ self.old.newest_first }
        ensures room { self.new.room ≡ self.old.room - 1 }
    {
        match &entry {
            Entry::Posted(_) => self.letters += 1,
            Entry::Taken(_) => {}
            Entry::Round => self.rounds += 1,
        }
        self.entries.push_reserved(entry);
    }
}
