// A source of files and a sink of bytes, by what is asked of them.
ghost use Rattle.std.specs.Prelude.{◌≡◌, ◌+◌, ◌<◌, ◌≤◌, ◌==◌, Bool, true, false, not, List, ℕ};
ghost use Rattle.std.specs.Prelude.{length, IfOk, IfSome, OnOk, OnErr, Option, Some};
ghost use Rattle.std.specs.Io.{ReadsAtMost};
ghost use Rattle.std.specs.Io.KnownBytes.{ReadConsumes, WriteAppends};
ghost use Rattle.hot_io.specs.Faults.{FailsExactly};

use crate::limits::MAX_OPENS;

/// A call of a source or a sink failed: its count of faults rose in it.
#[derive(Clone, Copy, Debug, PartialEq, Eq)]
pub struct Failed;

/// Files by name, read one after another, as `Read` and `File::open` of Rust's standard library.
///
/// A source counts its faults and its opens, and it may tell the bytes of its files. It says which
/// names each open may have, so that code over any source opens only what its own condition allows.
/// Each call needs that no earlier one failed.
pub trait Source {
    /// The bytes of each name, where they are told.
    ghost file: { Self → List ℕ → Option (List ℕ) };

    /// The bytes left of the open file, where they are told.
    ghost left: { Self → Option (List ℕ) };

    /// How often the source has failed.
    ghost faults: { Self → ℕ };

    /// Whether a file is open.
    ghost is_open: { Self → Bool };

    /// How often `open` was called, failed calls with it.
    ghost opens: { Self → ℕ };

    /// Whether the open of this number, counted from 0, may have this name.
    ghost allows: { Self → ℕ → List ℕ → Bool };

    /// Opens the file of this name, at its first byte; `-` is standard input.
    ///
    /// `Failed` comes exactly where the count of faults rises, and then no file is open.
    fn open(&mut self, name: &str) -> Result<(), Failed>
        requires unfailed { faults self.old ≡ 0 }
        requires closed { is_open self.old ≡ false }
        requires few { opens self.old < MAX_OPENS }
        requires allowed { allows self.old (opens self.old) name.now ≡ true }

        ensures cause { FailsExactly (faults self.old) (faults self.new) result }
        ensures count { opens self.new ≡ opens self.old + 1 }
        ensures files { file self.new ≡ file self.old }
        ensures names { allows self.new ≡ allows self.old }

        ensures opened { OnOk result (is_open self.new ≡ true) }
        ensures all { OnOk result
            (IfSome (file self.old name.now) (λ bytes. left self.new ≡ Some bytes)) }

        ensures stays_closed { OnErr result (is_open self.new ≡ is_open self.old) }
        ensures err { OnErr result (left self.new ≡ left self.old) };

    /// Puts the first of the bytes left in front of `buf`, and says how many.
    ///
    /// The answer is 0 exactly where no bytes are left, and then no file is open. `Failed` comes
    /// exactly where the count of faults rises, and then the file is open as before, at its place.
    fn read(&mut self, buf: &mut [u8]) -> Result<usize, Failed>
        requires unfailed { faults self.old ≡ 0 }
        requires opened { is_open self.old ≡ true }
        requires room { 0 < length buf.old }

        ensures cause { FailsExactly (faults self.old) (faults self.new) result }
        ensures count { opens self.new ≡ opens self.old }
        ensures files { file self.new ≡ file self.old }
        ensures names { allows self.new ≡ allows self.old }

        ensures bound { ReadsAtMost result buf.new }
        ensures bytes { ReadConsumes (left self.old) (left self.new) result buf.new }
        ensures open { IfOk result (λ n. is_open self.new ≡ not (n == 0)) }

        ensures stays_open { OnErr result (is_open self.new ≡ is_open self.old) }
        ensures err { OnErr result (left self.new ≡ left self.old) };
}

/// What bytes are written to, as `Write` of Rust's standard library, with a count of its faults.
///
/// A sink that failed is not written again.
pub trait Sink {
    /// The bytes written, where they are told.
    ghost written: { Self → Option (List ℕ) };

    /// How often the sink has failed.
    ghost faults: { Self → ℕ };

    /// Takes bytes from the front of the piece, at least one, and says how many.
    ///
    /// `Failed` comes exactly where the count of faults rises, and then nothing was written.
    fn write(&mut self, bytes: &[u8]) -> Result<usize, Failed>
        requires some { 0 < length bytes.now }
        requires unfailed { faults self.old ≡ 0 }

        ensures cause { FailsExactly (faults self.old) (faults self.new) result }
        ensures bound { IfOk result (λ n. (0 < n) × (n ≤ length bytes.now)) }
        ensures bytes { WriteAppends (written self.old) (written self.new) result bytes.now }
        ensures err { OnErr result (written self.new ≡ written self.old) };
}
