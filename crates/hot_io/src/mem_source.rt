// Files in memory, given so many bytes at a time, with one place at which reads fail.
ghost use Rattle.std.specs.Prelude.{◌≡◌, ◌+◌, ◌-◌, ◌≤◌, ◌<◌, ◌==◌, ◌++◌, ◌↔◌, min, [], length};
ghost use Rattle.std.specs.Prelude.{take, drop, IsOk, IsErr, IfOk, OnOk, OnErr, IsSome};
ghost use Rattle.std.specs.Prelude.{if◌then◌else◌, is_some, position};
ghost use Rattle.hot_io.specs.MemSource.{is_named, file_of, PutsFile, bytes_left, read_size};
ghost use Rattle.hot_io.specs.MemSource.{bytes_at};

use crate::limits::MAX_OPENS;
use crate::{Failed, Source};
use std::alloc::{AllocError, Global};
use std::marker::Model;

// A file in memory.
#[derive(Drop)]
pub struct NamedFile {
    name: String,
    bytes: Vec<u8>,
}

impl Model for NamedFile {
    ghost use Rattle.std.specs.Prelude.{string_bytes};
    ghost use Rattle.hot_io.specs.MemSource.{NamedBytes};

    ghost Value = { NamedBytes };

    ghost view = { λ f. record { name = string_bytes f.name; bytes = f.bytes.items } };
}

// Where the next read begins, and where the file ends.
#[derive(Clone, Copy)]
pub struct Place {
    file: usize,
    at: usize,
    end: usize,
}

/// A source over files in memory, for tests and for callers that have their bytes at hand.
///
/// It tells all its bytes and allows every name; standard input is the file named `-`. A file is
/// read in pieces of at most `chunk` bytes. With a stop set, reads fail at that place; without one
/// no read fails.
#[derive(Drop)]
pub struct MemSource {
    alloc: Global,
    files: Vec<NamedFile>,
    chunk: usize,
    stop: Option<u64>,
    given: u128,
    place: Option<Place>,
    opens: u32,
    faults: u64,
}

impl Model for MemSource {
    ghost use Rattle.hot_io.specs.MemSource.{MemFiles, IsSteady, left_at};

    ghost Value = { MemFiles };

    ghost view = { λ s. record {
      files = s.files.items;
      chunk = s.chunk;
      stop = s.stop;
      given = s.given;
      left = left_at s.files.items s.place;
      opens = s.opens;
      faults = s.faults;
    } };

    ghost invariant = { λ s. IsSteady s.files.items s.chunk s.stop s.given s.place s.opens };
}

// The number of the file of this name.
fn find(files: &[NamedFile], name: &str) -> Option<usize>
    ensures value { result ≡ position (is_named name.now) files.now }
{
    files.iter().position(|file| file.name.as_str() == name)
}

// Puts bytes of a file, from a place on, in front of the buffer, and says how many.
fn give(files: &[NamedFile], place: Place, most: usize, buf: &mut [u8]) -> usize
    requires in_file { place.file < length files.now }
    requires in_bytes { place.at ≤ length (bytes_at files.now place.file) }
    requires room { most ≤ length buf.old }
    ensures count { result ≡ min most (length (drop place.at (bytes_at files.now place.file))) }
    ensures within { place.at + result ≤ length (bytes_at files.now place.file) }
    ensures bytes { buf.new
        ≡ take result (drop place.at (bytes_at files.now place.file)) ++ drop result buf.old }
{
    let file = &files[place.file];
    let rest = &file.bytes[place.at..];
    let count = most.min(rest.len());
    buf[..count].copy_from_slice(&rest[..count]);
    count
}

impl MemSource {
    ghost use Rattle.std.specs.Prelude.{None, Some};

    /// A source with no file, which gives at most `chunk` bytes in a read.
    ///
    /// `chunk` is at least 1. The error is want of memory alone.
    pub fn new(alloc: Global, chunk: usize) -> Result<MemSource, AllocError>
        requires chunk { 1 ≤ chunk }
        ensures value { IfOk result
            (λ s. s
            ≡ record {
              files = [];
              chunk = chunk;
              stop = None;
              given = 0;
              left = None;
              opens = 0;
              faults = 0;
            }) }
    {
        Ok(MemSource {
            alloc,
            files: Vec::new(alloc),
            chunk,
            stop: None,
            given: 0,
            place: None,
            opens: 0,
            faults: 0,
        })
    }

    /// Adds a file, in the place of one that has this name. No file is open.
    ///
    /// The error is want of memory alone, and leaves the source as it was.
    pub fn add(&mut self, name: &str, bytes: &[u8]) -> Result<(), AllocError>
        requires closed { self.old.left ≡ None }
        ensures ok { OnOk result (PutsFile self.old.files self.new.files name.now bytes.now) }
        ensures rest { self.new ≡ record self.old { files = self.new.files } }
        ensures err { OnErr result (self.new ≡ self.old) }
    {
        let bytes = bytes.to_vec(self.alloc)?;
        match find(&self.files, name) {
            Some(i) => {
                let file = &mut self.files[i];
                file.bytes = bytes;
            }
            None => {
                let name = String::from_str(self.alloc, name)?;
                self.files.push(NamedFile { name, bytes })?;
            }
        }
        Ok(())
    }

    /// Sets the one place at which reads fail: once so many bytes were given, over all files.
    ///
    /// The place is at least the number of bytes given so far. No memory is taken.
    pub fn stop(&mut self, place: u64)
        requires ahead { self.old.given ≤ place }
        ensures value { self.new ≡ record self.old { stop = Some place } }
    {
        self.stop = Some(place);
    }
}

impl Source for MemSource {
    ghost use Rattle.std.specs.Prelude.{None, Some, true};

    ghost file = { λ s. file_of s.files };

    ghost left = { λ s. Some (bytes_left s) };

    ghost faults = { λ s. s.faults };

    ghost is_open = { λ s. is_some s.left };

    ghost opens = { λ s. s.opens };

    ghost allows = { λ s i name. true };

    /// Fails exactly where no file has this name.
    fn open(&mut self, name: &str) -> Result<(), Failed>
        requires unfailed { self.old.faults ≡ 0 }
        requires closed { self.old.left ≡ None }
        requires few { self.old.opens < MAX_OPENS }
        ensures found { IsOk result ↔ IsSome (file_of self.old.files name.now) }
        ensures ok { OnOk result (self.new ≡ record self.old {
          left = file_of self.old.files name.now;
          opens = self.old.opens + 1;
        }) }
        ensures err { OnErr result (self.new ≡ record self.old {
          opens = self.old.opens + 1;
          faults = self.old.faults + 1;
        }) }
    {
        self.opens += 1;
        match find(&self.files, name) {
            Some(file) => {
                let found = &self.files[file];
                let end = found.bytes.len();
                self.place = Some(Place { file, at: 0, end });
                Ok(())
            }
            None => {
                self.faults += 1;
                Err(Failed)
            }
        }
    }

    /// Fails exactly where the bytes given so far, over all files, equal the stop, also where no
    /// bytes are left. Else it gives the smallest of the buffer's length, the chunk, the bytes left
    /// and the bytes to the stop.
    fn read(&mut self, buf: &mut [u8]) -> Result<usize, Failed>
        requires unfailed { self.old.faults ≡ 0 }
        requires opened { is_some self.old.left ≡ true }
        requires room { 0 < length buf.old }
        ensures stopped { IsErr result ↔ (self.old.stop ≡ Some self.old.given) }
        ensures count { IfOk result (λ n. n ≡ read_size self.old (length buf.old)) }
        ensures bytes { IfOk result
            (λ n. buf.new ≡ take n (bytes_left self.old) ++ drop n buf.old) }
        ensures end { IfOk result (λ n. (n ≡ 0) ↔ (bytes_left self.old ≡ [])) }
        ensures ok { IfOk result (λ n. self.new ≡ record self.old {
          left = (if n == 0 then None else Some (drop n (bytes_left self.old)));
          given = self.old.given + n;
        }) }
        ensures err { OnErr result
            ((self.new ≡ record self.old { faults = self.old.faults + 1 }) × (buf.new ≡ buf.old)) }
    {
        let Some(place) = self.place else {
            unreachable!()
        };
        let mut most = self.chunk.min(buf.len());
        if let Some(stop) = self.stop {
            let ahead = u128::from(stop) - self.given;
            if ahead == 0 {
                self.faults += 1;
                return Err(Failed);
            }
            most = ahead.min(most as u128) as usize;
        }
        let count = give(&self.files, place, most, buf);
        self.given += count as u128;
        self.place = match count {
            0 => None,
            _ => Some(Place {
                file: place.file,
                at: place.at + count,
                end: place.end,
            }),
        };
        Ok(count)
    }
}
