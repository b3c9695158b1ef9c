//! The reader of a header, in any pieces.

ghost use Rattle.std.specs.Prelude.{◌≡◌, ◌≤◌, ◌++◌, [], length, IfOk};
ghost use Rattle.sdf_header.specs.Extent.{extent};
ghost use Rattle.sdf_header.specs.Layouts.{IsLayout};
ghost use Rattle.sdf_header.specs.Verdict.{Gives, verdict, unended};
ghost use Rattle.sdf_header.specs.Reading.{told, taken_of, Settled, ReadAlike, is_open, answer_of};

use crate::extent::scan;
use crate::header_fault::HeaderFault;
use crate::layout::{HeaderError, Layout};
use crate::verdict::judge;
use hot_units::limits::MAX_HEADER_BYTES;
use std::alloc::{AllocError, Global};
use std::marker::Model;

/// What a piece did.
#[derive(Clone, Copy, Debug, PartialEq, Eq)]
pub enum Fed {
    /// The whole piece was taken, and the header has not ended.
    More,
    /// The header ends with so many bytes of the piece.
    Ended(usize),
}

/// A reader of the header of a body file, fed in pieces as they come.
///
/// It is seen as the bytes that it keeps: all bytes so far, up to one that decides where the header
/// ends or that there is none. It holds at most 65,536 bytes, and looks at each byte a bounded
/// number of times.
#[derive(Drop)]
pub struct HeaderReader {
    alloc: Global,
    kept: Vec<u8>,
    line: usize,
    found: Result<Option<usize>, HeaderFault>,
}

impl Model for HeaderReader {
    ghost use Rattle.std.specs.Prelude.{ℕ, List, ◌≤◌, vec_capacity};

    ghost Value = { List ℕ };

    ghost use Rattle.hot_units.specs.Limits.{max_header_bytes};
    ghost use Rattle.sdf_header.specs.Extent.{Stands};

    ghost view = { λ r. r.kept.items };

    ghost invariant = { λ r. Stands r.found r.kept.items r.line
        × (max_header_bytes ≤ vec_capacity r.kept) };
}

fn is_open(found: Result<Option<usize>, HeaderFault>) -> bool
    ensures { result ≡ is_open found }
{
    matches!(found, Ok(None))
}

fn answer_of(found: Result<Option<usize>, HeaderFault>, taken: usize) -> Result<Fed, HeaderFault>
    ensures { result ≡ answer_of found taken }
{
    match found {
        Ok(None) => Ok(Fed::More),
        Ok(Some(_)) => Ok(Fed::Ended(taken)),
        Err(fault) => Err(fault),
    }
}

fn unended(len: usize) -> HeaderFault
    ensures { result ≡ unended len }
{
    if len < 5 {
        HeaderFault::NoMagic
    } else {
        HeaderFault::NoEnd
    }
}

impl HeaderReader {
    /// A reader that was fed no bytes, with room for the longest header.
    pub fn new(alloc: Global) -> Result<HeaderReader, AllocError>
        ensures empty { IfOk result (λ reader. reader ≡ []) }
    {
        Ok(HeaderReader {
            alloc,
            kept: Vec::with_capacity(alloc, MAX_HEADER_BYTES)?,
            line: 0,
            found: Ok(None),
        })
    }

    /// Takes the next piece of the input, which may be empty. It takes no memory.
    ///
    /// `Ended(n)` says that the header ends with the piece's first `n` bytes; later calls answer
    /// `Ended(0)`. The fault is `NoMagic` or `TooLong`, as soon as the bytes so far show it, and
    /// comes again at each call.
    pub fn feed(&mut self, piece: &[u8]) -> Result<Fed, HeaderFault>
        ensures answer { result ≡ told (extent (self.old ++ piece.now)) (length self.old) }
        ensures taken { IfOk result (λ fed. self.new ≡ self.old ++ taken_of fed piece.now) }
        ensures settled { Settled result self.new }
        ensures same { ReadAlike self.new (self.old ++ piece.now) }
    {
        if !is_open(self.found) {
            return answer_of(self.found, 0);
        }
        let (taken, found) = scan(&mut self.kept, &mut self.line, piece);
        self.found = found;
        answer_of(found, taken)
    }

    /// The layout of the header whose pieces were fed, or the fault that refuses it: of the faults
    /// that its bytes show, the first in the order of [`HeaderFault`].
    pub fn finish(self) -> Result<Layout, HeaderError>
        ensures value { Gives result (verdict self) }
        ensures facts { IfOk result (λ layout. IsLayout layout) }
        ensures header_len { IfOk result (λ layout. layout.header_len ≡ length self) }
    {
        let ended = match self.found {
            Ok(ended) => ended,
            Err(fault) => return Err(HeaderError::Fault(fault)),
        };
        let Some(text) = ended else {
            return Err(HeaderError::Fault(unended(self.kept.len())));
        };
        judge(self.alloc, &self.kept[..text], self.kept.len() as u32)
    }
}
