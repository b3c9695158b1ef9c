// Hostile use: a source or a sink that fails at each place in turn, and headers that are made to
// harm.
use super::ranks::PAIR_REPORT;
use super::{
    AMPLE, BROKEN, CUT, Case, Limits, MASSES, PAIR, PULLS, Refusal, WORDS, call, check,
    check_refusals, joined, plain_file,
};
use crate::Status;
use std::alloc::Global;
use std::process::Abort;
use std::thread::Threads;

/// The same on two ranks, with the report.
const REPORTED: &str = "forces --eps 1 --theta 0/1 --ranks 2 --report";

/// Stops the source at each place, from the first byte to behind the last.
fn check_stops<R: Threads + Sync + Abort>(rt: &R, alloc: Global, words: &str, input: &[u8]) {
    for stop in 0..=input.len() as u64 {
        let ended = call(rt, alloc, words, input, Limits { stop, ..AMPLE });
        check(rt, &ended, Status::ReadFault, b"", BROKEN);
    }
}

#[test]
fn a_source_that_stops_at_each_place(rt: HostRuntime) {
    let alloc = rt.alloc();
    let input = plain_file(&rt, alloc, MASSES, b"2", &PAIR);
    assert_eq!(rt; input.len(), 140);
    for words in [WORDS, REPORTED] {
        check_stops(&rt, alloc, words, &input);
    }
}

/// The status where a sink has this room for a text: a write fault, or this one where the text fits.
fn status_of(room: usize, text: &[u8], whole: Status) -> Status {
    if room < text.len() {
        Status::WriteFault
    } else {
        whole
    }
}

/// What the error sink holds where the output has this room for a text: that it failed, or what is
/// told behind a text that fits.
fn behind<'a>(room: usize, text: &[u8], whole: &'a [u8]) -> &'a [u8] {
    if room < text.len() { CUT } else { whole }
}

/// Makes the call with an output of each room, up to that of its whole text.
fn check_rooms<R: Threads + Sync + Abort>(rt: &R, alloc: Global, case: Case<'_>) {
    let (words, input, limits, status, out, err) = case;
    for room in 0..=out.len() {
        let limits = Limits {
            room: room as u64,
            ..limits
        };
        let ended = call(rt, alloc, words, input, limits);
        let status = status_of(room, out, status);
        check(rt, &ended, status, &out[..room], behind(room, out, err));
    }
}

#[test]
fn an_output_of_each_room(rt: HostRuntime) {
    let alloc = rt.alloc();
    let input = plain_file(&rt, alloc, MASSES, b"2", &PAIR);
    assert_eq!(rt; PULLS.len(), 52);
    let cases: [Case<'_>; 2] = [
        (WORDS, &input, AMPLE, Status::Done, PULLS, b""),
        (REPORTED, &input, AMPLE, Status::Done, PULLS, PAIR_REPORT),
    ];
    for case in cases {
        check_rooms(&rt, alloc, case);
    }
}

/// Makes the call with an error sink of each room, up to that of all that it tells.
fn check_error_rooms<R: Threads + Sync + Abort>(rt: &R, alloc: Global, case: Case<'_>) {
    let (words, input, limits, status, out, err) = case;
    for room in 0..=err.len() {
        let limits = Limits {
            err_room: room as u64,
            ..limits
        };
        let ended = call(rt, alloc, words, input, limits);
        check(rt, &ended, status_of(room, err, status), out, &err[..room]);
    }
}

#[test]
fn an_error_sink_of_each_room(rt: HostRuntime) {
    let alloc = rt.alloc();
    let input = plain_file(&rt, alloc, MASSES, b"2", &PAIR);
    let stopped = Limits { stop: 70, ..AMPLE };
    let full = Limits { room: 26, ..AMPLE };
    let cases: [Case<'_>; 6] = [
        (WORDS, &input, AMPLE, Status::Done, PULLS, b""),
        (REPORTED, &input, AMPLE, Status::Done, PULLS, PAIR_REPORT),
        ("", b"", AMPLE, Status::Words, b"", b"hot: A1 no command\n"),
        (
            WORDS,
            b"# SDF\n# SDF-EOH\n",
            AMPLE,
            Status::Input,
            b"",
            b"hot: H8 no struct\n",
        ),
        (WORDS, &input, stopped, Status::ReadFault, b"", BROKEN),
        (WORDS, &input, full, Status::WriteFault, &PULLS[..26], CUT),
    ];
    for case in cases {
        check_error_rooms(&rt, alloc, case);
    }
}

/// A header with this between its first and its last line.
fn header(rt: &impl Abort, alloc: Global, middle: &[u8]) -> Vec<u8> {
    let pieces: [&[u8]; 3] = [b"# SDF\n", middle, b"\n# SDF-EOH\n"];
    joined(rt, alloc, &pieces)
}

/// What stands between the first and the last line of a header, and the line that refuses it.
const HARMFUL: [(&[u8], &[u8]); 11] = [
    (
        b"struct {int x;}[];\nstruct {int y;}[];",
        b"hot: H7 second struct at 25\n",
    ),
    (b"struct {int x, x;}[];", b"hot: H6 name twice at 21\n"),
    (b"int a = 1.5;", b"hot: H4 syntax at 14\n"),
    (b"int a = 18446744073709551616;", b"hot: H4 syntax at 14\n"),
    (b"int a = 0x;", b"hot: H4 syntax at 14\n"),
    (b"/* x", b"hot: H4 syntax at 6\n"),
    (b"struct {int x[0];}[];", b"hot: H4 syntax at 20\n"),
    (
        b"struct {char a[1024]; char b;}[];",
        b"hot: H9 row too wide at 33\n",
    ),
    (b"unsigned float a = 1;", b"hot: H5 unknown type at 6\n"),
    (b"struct {int x, y;}[];", b"hot: H10 column z is missing\n"),
    (
        b"parameter cube_bits = 30; struct {int x, y, z;}[];",
        b"hot: H12 bad parameter cube_bits\n",
    ),
];

#[test]
fn headers_made_to_harm(rt: HostRuntime) {
    let alloc = rt.alloc();
    for (middle, line) in HARMFUL {
        let input = header(&rt, alloc, middle);
        let cases: [Refusal<'_>; 1] = [(WORDS, &input, line)];
        check_refusals(&rt, alloc, Status::Input, &cases);
    }
}

/// One without an end within the longest length, and one that ends in its first line.
#[test]
fn the_longest_and_the_shortest_header(rt: HostRuntime) {
    let alloc = rt.alloc();
    let long = header(
        &rt,
        alloc,
        &vec![in alloc; b' '; 70_000].expect(&rt, "memory"),
    );
    let cases: [Refusal<'_>; 2] = [
        (WORDS, &long, b"hot: H2 header longer than 65536 bytes\n"),
        (WORDS, b"# SDF-EOH\n", b"hot: H8 no struct\n"),
    ];
    check_refusals(&rt, alloc, Status::Input, &cases);
}
