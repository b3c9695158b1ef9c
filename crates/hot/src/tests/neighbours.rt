// Neighbours of the bodies of files.
use super::{
    AMPLE, CUT, Case, FileCase, Limits, PLACES, call_with, check, check_calls, check_files,
    input_of, plain_file,
};
use crate::Status;
use wire::{MemWire, OpenGate};

/// Two bodies, three units apart: 768 fine ones.
const THREE_APART: [i32; 6] = [0, 0, 0, 1, 2, 2];

/// What is printed of them where each is near the other, and where none is.
const BOTH: &[u8] = b"# hot near 1\n0 1 1\n1 1 0\n# end 2\n";

const NONE: &[u8] = b"# hot near 1\n0 0\n1 0\n# end 2\n";

/// Five bodies at one point, and what is printed of them.
const POINT: [i32; 15] = [7; 15];

const FIVE: &[u8] =
    b"# hot near 1\n0 4 1 2 3 4\n1 4 0 2 3 4\n2 4 0 1 3 4\n3 4 0 1 2 4\n4 4 0 1 2 3\n# end 5\n";

/// A call that is done on two bodies three units apart.
const fn of_two(words: &'static str, out: &'static [u8]) -> FileCase<'static> {
    (words, PLACES, b"2", &THREE_APART, Status::Done, out, b"")
}

#[test]
fn neighbours_of_files(rt: HostRuntime) {
    let alloc = rt.alloc();
    let cases: [FileCase<'_>; 12] = [
        of_two("near --radius 768", BOTH),
        of_two("near --radius 767", NONE),
        of_two("near --radius 768 --ranks 2 --mail prompt", BOTH),
        of_two("near --mail last --radius 768 --ranks 2", BOTH),
        of_two("near --ranks 2 --mail single --leaf 1 --radius 768", BOTH),
        of_two("near --radius 1073741824", BOTH),
        of_two("near --radius 0", NONE),
        // 256 where no radius is given
        of_two("near", NONE),
        (
            "near",
            PLACES,
            b"2",
            &[1, 0, 0, 0, 0, 0],
            Status::Done,
            BOTH,
            b"",
        ),
        (
            "near --radius 0 --ranks 3",
            PLACES,
            b"5",
            &POINT,
            Status::Done,
            FIVE,
            b"",
        ),
        (
            "near --radius 0 --mail single --ranks 3",
            PLACES,
            b"5",
            &POINT,
            Status::Done,
            FIVE,
            b"",
        ),
        (
            "near",
            PLACES,
            b"0",
            &[],
            Status::Done,
            b"# hot near 1\n# end 0\n",
            b"",
        ),
    ];
    check_files(&rt, alloc, &cases);
}

#[test]
fn no_neighbours(rt: HostRuntime) {
    let alloc = rt.alloc();
    let good = plain_file(&rt, alloc, PLACES, b"2", &THREE_APART);
    let full = Limits { room: 16, ..AMPLE };
    let cases: [Case<'_>; 3] = [
        (
            "near --theta 1/1",
            b"",
            AMPLE,
            Status::Words,
            b"",
            b"hot: A3 unknown option --theta\n",
        ),
        (
            "near --radius 1073741825",
            b"",
            AMPLE,
            Status::Words,
            b"",
            b"hot: A6 bad value 1073741825 for --radius\n",
        ),
        (
            "near --radius 768",
            &good,
            full,
            Status::WriteFault,
            b"# hot near 1\n0 1",
            CUT,
        ),
    ];
    check_calls(&rt, alloc, &cases);
}

#[test]
fn neighbours_in_two_files(rt: HostRuntime) {
    let alloc = rt.alloc();
    let first = plain_file(&rt, alloc, PLACES, b"1", &[0, 0, 0]);
    let second = plain_file(&rt, alloc, PLACES, b"1", &[1, 2, 2]);
    let mut source = input_of(&rt, alloc, &first, AMPLE.stop);
    source.add("b", &second).expect(&rt, "memory");
    let mut wire = MemWire::new(alloc).expect(&rt, "memory");
    let words = "near --ranks 2 --radius 768 - b";
    let ended = call_with(&rt, alloc, words, &mut source, AMPLE, &mut wire, &OpenGate);
    check(&rt, &ended, Status::Done, BOTH, b"");
}
