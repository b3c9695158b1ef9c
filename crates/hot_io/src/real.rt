// The files and streams of the system. As sources and sinks they tell no content.
ghost use Rattle.std.specs.Prelude.{◌≡◌, ◌+◌, ◌<◌, ◌≤◌, true, false, length, take};
ghost use Rattle.std.specs.Prelude.{IfOk, OnOk, OnErr};
ghost use Rattle.std.specs.Io.{WritesAtMost};
ghost use Rattle.std.specs.Io.KnownBytes.{Appends};

use crate::{Failed, Sink, Source};
use std::fs::File;
use std::io;
use std::io::{Read, Write};
use std::marker::Model;
use std::rt::Files;

// What a source over the system reads from.
#[derive(Drop)]
pub enum Stream<F: Drop, I: Drop> {
    File(F),
    Input(I),
}

/// The files of the system, and standard input under the name `-`.
///
/// It tells no content and allows every name. Each `Err` of the system counts as a fault. A call
/// may wait for the system.
#[derive(Drop)]
pub struct FileSource<'a, R: Files + Input> {
    rt: &'a R,
    stream: Option<Stream<R::File, R::Reader>>,
    opens: u32,
    faults: u64,
}

impl<'a, R: Files + Input> Model for FileSource<'a, R> {
    ghost use Rattle.std.specs.Prelude.{is_some};
    ghost use Rattle.hot_io.specs.Real.{OpenFiles};

    ghost Value = { OpenFiles };

    ghost view = { λ s. record { is_open = is_some s.stream; opens = s.opens; faults = s.faults } };
}

impl<'a, R: Files + Input> FileSource<'a, R> {
    /// A source over the system, with no file open. No memory is taken.
    pub fn new(rt: &'a R) -> FileSource<'a, R>
        ensures value { result ≡ record { is_open = false; opens = 0; faults = 0 } }
    {
        FileSource {
            rt,
            stream: None,
            opens: 0,
            faults: 0,
        }
    }
}

impl<R: Files + Input> Source for FileSource<'_, R> {
    ghost use Rattle.std.specs.Prelude.{None};

    ghost file = { λ s name. None };

    ghost left = { λ s. None };

    ghost faults = { λ s. s.faults };

    ghost is_open = { λ s. s.is_open };

    ghost opens = { λ s. s.opens };

    ghost allows = { λ s i name. true };

    fn open(&mut self, name: &str) -> Result<(), Failed> {
        self.opens += 1;
        if name == "-" {
            self.stream = Some(Stream::Input(self.rt.reader()));
            return Ok(());
        }
        match File::open(self.rt, name) {
            Ok(file) => {
                self.stream = Some(Stream::File(file));
                Ok(())
            }
            Err(_) => {
                self.faults += 1;
                Err(Failed)
            }
        }
    }

    fn read(&mut self, buf: &mut [u8]) -> Result<usize, Failed> {
        let outcome = match &mut self.stream {
            Some(Stream::File(file)) => file.read(buf),
            Some(Stream::Input(input)) => input.read(buf),
            None => unreachable!(),
        };
        match outcome {
            Ok(0) => {
                self.stream = None;
                Ok(0)
            }
            Ok(count) => Ok(count),
            Err(_) => {
                self.faults += 1;
                Err(Failed)
            }
        }
    }
}

// Writes a front of the bytes, through any buffer that the writer has, and says how many it took.
fn write_through<W: Write>(writer: &mut W, bytes: &[u8]) -> io::Result<usize>
    ensures bound { WritesAtMost result bytes.now }
    ensures grown { IfOk result
        (λ n. Appends (W.contents writer.old) (W.contents writer.new) (take n bytes.now)) }
{
    let count = writer.write(bytes)?;
    writer.flush()?;
    Ok(count)
}

/// A writer of the system, as standard output, as a sink, seen as what the writer tells of its
/// contents and the count of faults.
///
/// As a sink it tells no content, since a flush that fails leaves open what was written. Each write
/// is flushed before it is answered, and a failure of either is counted, so none is lost in a
/// buffer at the end of the process. A call may wait for the system.
#[derive(Drop)]
pub struct OutSink<W: Write + Drop> {
    writer: W,
    faults: u64,
}

impl<W: Write + Drop> Model for OutSink<W> {
    ghost use Rattle.hot_io.specs.Real.{OpenPage};

    ghost Value = { OpenPage };

    ghost view = { λ s. record { contents = W.contents s.writer; faults = s.faults } };
}

impl<W: Write + Drop> OutSink<W> {
    /// A sink over this writer, without a fault. No memory is taken.
    pub fn new(writer: W) -> OutSink<W>
        ensures value { result ≡ record { contents = W.contents writer; faults = 0 } }
    {
        OutSink { writer, faults: 0 }
    }
}

impl<W: Write + Drop> Sink for OutSink<W> {
    ghost use Rattle.std.specs.Prelude.{None};

    ghost written = { λ s. None };

    ghost faults = { λ s. s.faults };

    /// At `Ok(n)` the writer's contents, where it tells them, grew by the first `n` bytes, of which
    /// there is at least one; else a fault is counted.
    fn write(&mut self, bytes: &[u8]) -> Result<usize, Failed>
        requires some { 0 < length bytes.now }
        requires unfailed { self.old.faults ≡ 0 }
        ensures bound { IfOk result (λ n. (0 < n) × (n ≤ length bytes.now)) }
        ensures grown { IfOk result
            (λ n. Appends self.old.contents self.new.contents (take n bytes.now)) }
        ensures ok { OnOk result (self.new.faults ≡ self.old.faults) }
        ensures err { OnErr result (self.new.faults ≡ self.old.faults + 1) }
    {
        match write_through(&mut self.writer, bytes) {
            Ok(count) if count > 0 => Ok(count),
            _ => {
                self.faults += 1;
                Err(Failed)
            }
        }
    }
}

/// A writer of the system, as standard error, as a sink: the same as [`OutSink`].
#[derive(Drop)]
pub struct ErrSink<W: Write + Drop> {
    inner: OutSink<W>,
}

impl<W: Write + Drop> Model for ErrSink<W> {
    ghost use Rattle.hot_io.specs.Real.{OpenPage};

    ghost Value = { OpenPage };

    ghost view = { λ s. s.inner };
}

impl<W: Write + Drop> ErrSink<W> {
    /// A sink over this writer, without a fault. No memory is taken.
    pub fn new(writer: W) -> ErrSink<W>
        ensures value { result ≡ record { contents = W.contents writer; faults = 0 } }
    {
        ErrSink {
            inner: OutSink::new(writer),
        }
    }
}

impl<W: Write + Drop> Sink for ErrSink<W> {
    ghost use Rattle.std.specs.Prelude.{None};

    ghost written = { λ s. None };

    ghost faults = { λ s. s.faults };

    /// The same as for [`OutSink`].
    fn write(&mut self, bytes: &[u8]) -> Result<usize, Failed>
        requires some { 0 < length bytes.now }
        requires unfailed { self.old.faults ≡ 0 }
        ensures bound { IfOk result (λ n. (0 < n) × (n ≤ length bytes.now)) }
        ensures grown { IfOk result
            (λ n. Appends self.old.contents self.new.contents (take n bytes.now)) }
        ensures ok { OnOk result (self.new.faults ≡ self.old.faults) }
        ensures err { OnErr result (self.new.faults ≡ self.old.faults + 1) }
    {
        self.inner.write(bytes)
    }
}
