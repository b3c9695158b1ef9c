// Generated bodies: as a file, and in a run.
use super::{AMPLE, CUT, Case, Limits, call, check, check_calls};
use crate::Status;
use std::alloc::Global;
use std::process::Abort;
use std::thread::Threads;

/// No file is read: the source would fail at its first byte.
const CLOSED: Limits = Limits { stop: 0, ..AMPLE };

/// The file of one body by the seed 0.
const ONE_BODY: &[u8] =
    b"# SDF\nparameter byteorder = 0x78563412;\nint cube_bits = 21;\nstruct {\n  int32_t x, y, z;\n}[1];\n# SDF-EOH\n\xaf\x80\x02\x00\x1d\x41\x03\x00\xcf\x5e\x13\x00";

#[test]
fn files_and_lines(rt: HostRuntime) {
    let alloc = rt.alloc();
    assert_eq!(rt; ONE_BODY.len(), 104 + 12);
    let cases: [Case<'_>; 4] = [
        (
            "make --bodies 1 --seed 0",
            b"not read",
            CLOSED,
            Status::Done,
            ONE_BODY,
            b"",
        ),
        (
            "make --bodies 0",
            b"not read",
            CLOSED,
            Status::Done,
            b"# SDF\nparameter byteorder = 0x78563412;\nint cube_bits = 21;\nstruct {\n  int32_t x, y, z;\n}[0];\n# SDF-EOH\n",
            b"",
        ),
        (
            "sample --bodies 1 --seed 0",
            b"not read",
            CLOSED,
            Status::Done,
            b"sample bodies 1 seed 0 ranks 1 opened 1 asks 0 cells 1 letters 0 rounds 1 sum 0 0 0\n",
            b"",
        ),
        (
            "sample --bodies 0 --seed 0",
            b"not read",
            CLOSED,
            Status::Done,
            b"sample bodies 0 seed 0 ranks 1 opened 0 asks 0 cells 0 letters 0 rounds 1 sum 0 0 0\n",
            b"",
        ),
    ];
    check_calls(&rt, alloc, &cases);
}

#[test]
fn a_file_that_is_cut(rt: HostRuntime) {
    let alloc = rt.alloc();
    for room in [0, 1, 98, 103, 104, 115] {
        let limits = Limits {
            room: room as u64,
            ..AMPLE
        };
        let ended = call(&rt, alloc, "make --bodies 1 --seed 0", b"", limits);
        check(&rt, &ended, Status::WriteFault, &ONE_BODY[..room], CUT);
    }
}

/// Where the line of a sample has its letters and its rounds, in words.
const LETTERS: usize = 14;

const ROUNDS: usize = 16;

/// What a run on 2,000 bodies shows, with more words behind the command.
fn sample<R: Threads + Sync + Abort>(rt: &R, alloc: Global, more: &str) -> Vec<u8> {
    let mut words = Vec::from_slice(alloc, b"sample --bodies 2000 --seed 7 --ranks 16").expect(
        rt, "memory",
    );
    words
        .extend_from_slice(more.as_bytes())
        .expect(rt, "memory");
    let words = str::from_utf8(&words).expect(rt, "text");
    let ended = call(rt, alloc, words, b"", AMPLE);
    assert!(rt; ended.status == Status::Done && ended.err.written().is_empty());
    Vec::from_slice(alloc, ended.out.written()).expect(rt, "memory")
}

/// The words of a sample that letters and rounds do not change, which are as many in each sample.
fn same_words(rt: &impl Abort, one: &[u8], two: &[u8]) {
    let one = str::from_utf8(one).expect(rt, "text");
    let two = str::from_utf8(two).expect(rt, "text");
    let mut place = 0_usize;
    for (word, other) in one.split_whitespace().zip(two.split_whitespace()) {
        assert!(rt; place == LETTERS || place == ROUNDS || word == other);
        place = place.saturating_add(1);
    }
    assert!(rt; place == 21);
    assert!(rt; one.split_whitespace().count() == 21);
    assert!(rt; two.split_whitespace().count() == 21);
}

#[test]
fn one_sample_under_each_mail(rt: HostRuntime) {
    let alloc = rt.alloc();
    let first = sample(&rt, alloc, "");
    assert!(rt; first == sample(&rt, alloc, " --mail prompt"));
    for more in [" --mail last", " --mail 7"] {
        same_words(&rt, &first, &sample(&rt, alloc, more));
    }
}
