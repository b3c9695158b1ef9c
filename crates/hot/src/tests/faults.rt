// Sources that stop behind a fault, or before it.
use super::{AMPLE, BROKEN, Limits, MASSES, PLACES, WORDS, call, check, plain_file};
use crate::Status;
use std::alloc::Global;
use std::process::Abort;
use std::thread::Threads;

/// Where a source stops, and the line: that of a fault in what it gave, or that it broke off.
type Stop<'a> = (u64, &'a [u8]);

/// Whether the forces of a file whose source stops there come to this line.
fn check_stops<R: Threads + Sync + Abort>(rt: &R, alloc: Global, input: &[u8], stops: &[Stop<'_>]) {
    for case in stops {
        let (stop, line) = *case;
        let ended = call(rt, alloc, WORDS, input, Limits { stop, ..AMPLE });
        let status = if line == BROKEN {
            Status::ReadFault
        } else {
            Status::Input
        };
        check(rt, &ended, status, b"", line);
    }
}

/// In the middle of row 7, behind the last row, and before the first byte.
const IN_ROWS: [Stop<'static>; 3] = [(193, BROKEN), (223, BROKEN), (0, BROKEN)];

#[test]
fn a_source_that_stops_in_rows(rt: HostRuntime) {
    let whole = plain_file(&rt, rt.alloc(), PLACES, b"10", &[0; 30]);
    assert!(rt; whole.len() == 223);
    check_stops(&rt, rt.alloc(), &whole, &IN_ROWS);
}

/// Behind row 6, which has no mass, and within it.
const AT_A_FAULT: [Stop<'static>; 2] = [(221, b"hot: B4 row 6 mass out of range\n"), (220, BROKEN)];

#[test]
fn a_source_that_stops_at_a_fault(rt: HostRuntime) {
    let mut heavy = [1; 40];
    heavy[27] = 0;
    let faulty = plain_file(&rt, rt.alloc(), MASSES, b"10", &heavy);
    assert!(rt; faulty.len() == 269);
    check_stops(&rt, rt.alloc(), &faulty, &AT_A_FAULT);
}

/// Behind the header, of which a column is not whole.
const BEHIND_A_FLOAT: [Stop<'static>; 1] = [(108, b"hot: H11 column x is not whole\n")];

/// Behind a header without a struct, and before its last byte.
const BEHIND_NO_STRUCT: [Stop<'static>; 2] = [(16, b"hot: H8 no struct\n"), (15, BROKEN)];

#[test]
fn a_source_that_stops_behind_the_header(rt: HostRuntime) {
    let float = plain_file(&rt, rt.alloc(), b"float x;\nint32_t y, z;", b"0", &[]);
    assert!(rt; float.len() == 108);
    check_stops(&rt, rt.alloc(), &float, &BEHIND_A_FLOAT);
    check_stops(
        &rt,
        rt.alloc(),
        b"# SDF\n# SDF-EOH\nmore",
        &BEHIND_NO_STRUCT,
    );
}
