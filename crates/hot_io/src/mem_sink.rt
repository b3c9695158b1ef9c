// A sink in memory, which takes so many bytes at a time and has room for so many.
ghost use Rattle.std.specs.Prelude.{◌≡◌, ◌+◌, ◌-◌, ◌≤◌, ◌<◌, ◌++◌, ◌↔◌, min, [], length, take};
ghost use Rattle.std.specs.Prelude.{IsErr, IfOk, OnErr};

use crate::limits::MAX_ROOM;
use crate::{Failed, Sink};
use std::alloc::{AllocError, Global};
use std::marker::Model;

/// A sink into memory, for tests and for callers that want the bytes at hand.
///
/// It takes at most `chunk` bytes in a write, and fails once it holds `room` bytes. It tells all
/// its bytes.
#[derive(Drop)]
pub struct MemSink {
    bytes: Vec<u8>,
    chunk: usize,
    room: usize,
    faults: u64,
}

impl Model for MemSink {
    ghost use Rattle.std.specs.Prelude.{◌≤◌, vec_len, vec_capacity};
    ghost use Rattle.hot_io.specs.MemSink.{MemPage};

    ghost Value = { MemPage };

    ghost view = { λ s. record {
      bytes = s.bytes.items;
      chunk = s.chunk;
      room = s.room;
      faults = s.faults;
    } };

    ghost invariant = { λ s. (1 ≤ s.chunk) × (vec_len s.bytes ≤ s.room)
        × (s.room ≤ vec_capacity s.bytes) };
}

impl MemSink {
    /// An empty sink that takes at most `chunk` bytes in a write and `room` bytes in all.
    ///
    /// `chunk` is at least 1. It reserves `room` bytes; the error is want of memory alone.
    pub fn new(alloc: Global, chunk: usize, room: u64) -> Result<MemSink, AllocError>
        requires chunk { 1 ≤ chunk }
        requires room { room ≤ MAX_ROOM }
        ensures value { IfOk result
            (λ s. s ≡ record { bytes = []; chunk = chunk; room = room; faults = 0 }) }
    {
        let room = room as usize;
        Ok(MemSink {
            bytes: Vec::with_capacity(alloc, room)?,
            chunk,
            room,
            faults: 0,
        })
    }

    /// The bytes written so far.
    pub fn written(&self) -> &[u8]
        ensures value { result.now ≡ self.now.bytes }
    {
        &self.bytes
    }
}

impl Sink for MemSink {
    ghost use Rattle.std.specs.Prelude.{Some};

    ghost written = { λ s. Some s.bytes };

    ghost faults = { λ s. s.faults };

    /// Fails exactly where all the room is used. Else it takes the smallest of the piece's length,
    /// the chunk and the room left. No memory is taken.
    fn write(&mut self, bytes: &[u8]) -> Result<usize, Failed>
        requires some { 0 < length bytes.now }
        requires unfailed { self.old.faults ≡ 0 }
        ensures full { IsErr result ↔ (length self.old.bytes ≡ self.old.room) }
        ensures count { IfOk result
            (λ n. n
            ≡ min (length bytes.now)
            (min self.old.chunk (self.old.room - length self.old.bytes))) }
        ensures some { IfOk result (λ n. 0 < n) }
        ensures ok { IfOk result
            (λ n. self.new ≡ record self.old { bytes = self.old.bytes ++ take n bytes.now }) }
        ensures err { OnErr result (self.new ≡ record self.old { faults = self.old.faults + 1 }) }
    {
        let room = self.room - self.bytes.len();
        if room == 0 {
            self.faults += 1;
            return Err(Failed);
        }
        let taken = bytes.len().min(self.chunk).min(room);
        match self.bytes.extend_from_slice(&bytes[..taken]) {
            Ok(()) => Ok(taken),
            Err(_) => unreachable!(),
        }
    }
}
