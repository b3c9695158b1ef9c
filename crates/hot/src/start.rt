// From the words that the system gives to the number that the process ends with.
ghost use Rattle.std.specs.Prelude.{◌≡◌, drop, map, IfOk, string_bytes, [], false};
ghost use Rattle.std.specs.IoError.{error_kind};
ghost use Rattle.std.specs.Process.{exit_status};
ghost use Rattle.std.specs.Vec.Iter.{into_iter_items};
ghost use Rattle.hot_io.specs.Writing.{Gained};
ghost use Rattle.body_file.specs.Sources.{AreAllowed, StandsBehind};
ghost use Rattle.hot.specs.Commands.{names_of};
ghost use Rattle.hot.specs.Runs.{Wired};
ghost use Rattle.hot.specs.Call.{Run, IsAnswered};
ghost use Rattle.hot.specs.Statuses.{code_of, without_words};
ghost use Rattle.hot.specs.declared.status.Status.{Status};

use crate::call::hot_main;
use crate::status::Status;
use hot_io::{Sink, Source};
use hot_words::WordList;
use std::alloc::{AllocError, Global};
use std::env::Args;
use std::io::{self, ErrorKind};
use std::process::ExitCode;
use std::thread::Threads;
use wire::{Gate, Wire};

/// How the program ends where the system gives no words: as at want of memory, or, where they are
/// no text, as at refused words.
pub fn status_without_words(error: &io::Error) -> Status
    ensures value { result ≡ without_words (error_kind error.now) }
{
    match error.kind() {
        ErrorKind::OutOfMemory => Status::Memory,
        _ => Status::Words,
    }
}

/// The arguments behind the first, which is the program's name. The error is want of memory.
pub fn words_behind_name(alloc: Global, arguments: Args) -> Result<WordList, AllocError>
    ensures words { IfOk result
        (λ words. words ≡ map string_bytes (drop 1 (into_iter_items arguments))) }
{
    let mut words = WordList::new(alloc);
    let mut arguments = arguments;
    arguments.next();
    'words: for word in arguments {
        words.push(word.as_str())?;
    }
    Ok(words)
}

/// One call of the program, and the number that the process ends with: that of a status for which
/// the clause `answered` of `hot_main` holds, the whole promise.
pub fn run_program<R: Threads + Sync, S: Source, O: Sink, E: Sink, M: Wire, G: Gate>(
    rt: &R,
    alloc: Global,
    words: &WordList,
    source: &mut S,
    out: &mut O,
    err: &mut E,
    wire: &mut M,
    gate: &G,
) -> ExitCode
    requires source { S.faults source.old ≡ 0 }
    requires out { O.faults out.old ≡ 0 }
    requires err { E.faults err.old ≡ 0 }
    requires closed { S.is_open source.old ≡ false }
    requires first { S.opens source.old ≡ 0 }
    requires allowed { AreAllowed (S.allows source.old) 0 (names_of words.now) }
    requires quiet { (M.desk wire.old).pending ≡ [] }
    ensures answered { (run : Run) × (status : Status) × (run.words ≡ words.now)
        × StandsBehind S.Source (names_of words.now) source.old source.new run.input
        × Wired M.desk wire.old wire.new run.wire
        × Gained (O.written out.old) (O.written out.new) (O.faults out.old) (O.faults out.new)
        run.out
        × Gained (E.written err.old) (E.written err.new) (E.faults err.old) (E.faults err.new)
        run.err
        × IsAnswered run status × (exit_status result ≡ code_of status) }
{
    let status = hot_main(rt, alloc, words, source, out, err, wire, gate);
    ExitCode::from(status.code())
}
