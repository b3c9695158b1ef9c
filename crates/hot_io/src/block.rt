// Text on its way to a sink, gathered in a block so that a write hands over about 4 KB.
ghost use Rattle.std.specs.Prelude.{◌≡◌, ◌+◌, ◌≤◌, ◌++◌, [], length, OnOk};
ghost use Rattle.hot_io.specs.Faults.{FailsExactly};
ghost use Rattle.hot_io.specs.Writing.{Puts, Writes};

use crate::limits::{BLOCK, NUMBER_ROOM};
use crate::{Failed, Sink, write_all};
use itoa::{Buffer, Integer};
use std::marker::Model;

/// The end of a text that was not handed to its sink yet: at most 4,096 bytes. Clauses see these
/// bytes.
///
/// What a sink gained and then what the block holds is the text so far. So a text is whole only
/// once [`Block::finish`] was called, and no caller that promises a whole text can leave that out.
#[derive(Drop)]
pub struct Block {
    bytes: [u8; BLOCK],
    held: usize,
}

impl Model for Block {
    ghost use Rattle.std.specs.Prelude.{ℕ, ◌≤◌, List, take};
    ghost use Rattle.hot_io.specs.declared.limits.TheConstants.{BLOCK};

    ghost Value = { List ℕ };

    ghost view = { λ b. take b.held b.bytes };

    ghost invariant = { λ b. b.held ≤ BLOCK };
}

impl Block {
    /// A block that holds nothing. No memory is taken.
    pub fn new() -> Self
        ensures empty { result ≡ [] }
    {
        Block {
            bytes: [0; BLOCK],
            held: 0,
        }
    }

    /// Sends what is held, where fewer than `room` bytes are free behind it.
    ///
    /// `Failed` comes exactly where the sink's count of faults rises, and then the sink gained a
    /// front of what was held. The sink gets no empty piece. No memory is taken.
    pub fn make_room<K: Sink>(&mut self, sink: &mut K, room: usize) -> Result<(), Failed>
        requires room { room ≤ BLOCK }
        requires unfailed { K.faults sink.old ≡ 0 }
        ensures cause { FailsExactly (K.faults sink.old) (K.faults sink.new) result }
        ensures text { Puts (K.written sink.old) self.old (K.written sink.new) self.new result [] }
        ensures free { OnOk result (length self.new + room ≤ BLOCK) }
    {
        if BLOCK - self.held < room {
            write_all(sink, &self.bytes[..self.held])?;
            self.held = 0;
        }
        Ok(())
    }

    /// Adds bytes.
    pub fn push(&mut self, bytes: &[u8])
        requires room { length self.old + length bytes.now ≤ BLOCK }
        ensures bytes { self.new ≡ self.old ++ bytes.now }
        ensures long { length self.new ≡ length self.old + length bytes.now }
    {
        let end = self.held + bytes.len();
        self.bytes[self.held..end].copy_from_slice(bytes);
        self.held = end;
    }

    /// Adds a word and, in decimal, a number.
    pub fn add<I: Integer>(&mut self, word: &str, number: I)
        requires room { length self.old + length word.now + NUMBER_ROOM ≤ BLOCK }
        ensures text { self.new ≡ self.old ++ word.now ++ I.text number }
        ensures short { length self.new ≤ length self.old + length word.now + NUMBER_ROOM }
    {
        self.push(word.as_bytes());
        let mut buffer = Buffer::new();
        self.push(buffer.format(number).as_bytes());
    }

    /// Adds bytes, however many they are: what is held is sent where they do not fit behind it, and
    /// they are sent too where they fit no block.
    ///
    /// `Failed` comes exactly where the sink's count of faults rises, and then the sink gained a
    /// front of what was held and of the bytes behind it. No memory is taken.
    pub fn put<K: Sink>(&mut self, sink: &mut K, bytes: &[u8]) -> Result<(), Failed>
        requires unfailed { K.faults sink.old ≡ 0 }
        ensures cause { FailsExactly (K.faults sink.old) (K.faults sink.new) result }
        ensures text { Puts (K.written sink.old) self.old (K.written sink.new) self.new result
            bytes.now }
    {
        if bytes.len() > BLOCK {
            self.make_room(sink, BLOCK)?;
            return write_all(sink, bytes);
        }
        self.make_room(sink, bytes.len())?;
        self.push(bytes);
        Ok(())
    }

    /// Ends the text: sends what is held.
    ///
    /// `Failed` comes exactly where the sink's count of faults rises, and then the sink gained a
    /// front of what was held. No memory is taken.
    pub fn finish<K: Sink>(self, sink: &mut K) -> Result<(), Failed>
        requires unfailed { K.faults sink.old ≡ 0 }
        ensures cause { FailsExactly (K.faults sink.old) (K.faults sink.new) result }
        ensures text { Writes (K.written sink.old) (K.written sink.new) result self }
    {
        write_all(sink, &self.bytes[..self.held])
    }
}
