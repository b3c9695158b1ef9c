// Forces as SDF.
use super::{
    AMPLE, CUT, Case, FileCase, Limits, MASSES, PAIR, PLACES, check_calls, check_files, joined,
    plain_file,
};
use crate::Status;
use std::alloc::Global;
use std::process::Abort;

/// The header up to the number of rows.
const FRONT: &[u8] =
    b"# SDF\nparameter byteorder = 0x78563412;\nstruct {\n  int64_t ident_hi;\n  uint64_t ident_lo;\n  int64_t ax_hi;\n  uint64_t ax_lo;\n  int64_t ay_hi;\n  uint64_t ay_lo;\n  int64_t az_hi;\n  uint64_t az_lo;\n}[";

/// The columns of a row: the high and the low half of the ident and of three components.
type Columns = [i64; 8];

/// What is written of the two bodies. The high half of a number from -2^64 to -1 is -1.
const PULL_ROWS: [Columns; 2] = [
    [0, 0, 0, 3_145_725, 0, 0, 0, 0],
    [0, 1, -1, -1_048_575, 0, 0, 0, 0],
];

/// A file of forces. A low half that is not below 2^63 stands here as the signed number with its
/// bits.
fn forces_file(rt: &impl Abort, alloc: Global, count: &[u8], rows: &[Columns]) -> Vec<u8> {
    let front: [&[u8]; 3] = [FRONT, count, b"];\n# SDF-EOH\n"];
    let mut bytes = joined(rt, alloc, &front);
    for row in rows {
        for column in row {
            bytes
                .extend_from_slice(&column.to_le_bytes())
                .expect(rt, "memory");
        }
    }
    bytes
}

#[test]
fn forces_as_sdf(rt: HostRuntime) {
    let alloc = rt.alloc();
    let pulls = forces_file(&rt, alloc, b"2", &PULL_ROWS);
    let none = forces_file(&rt, alloc, b"0", &[]);
    let cases: [FileCase<'_>; 3] = [
        (
            "forces --eps 1 --theta 0/1 --form sdf",
            MASSES,
            b"2",
            &PAIR,
            Status::Done,
            &pulls,
            b"",
        ),
        (
            "forces --form sdf --ranks 2 --eps 1 --mail last -",
            MASSES,
            b"",
            &PAIR,
            Status::Done,
            &pulls,
            b"",
        ),
        (
            "forces --form sdf",
            PLACES,
            b"0",
            &[],
            Status::Done,
            &none,
            b"",
        ),
    ];
    check_files(&rt, alloc, &cases);
}

/// A report is the same in both forms; an output that is full within a row is not followed by it.
#[test]
fn a_report_behind_sdf(rt: HostRuntime) {
    let alloc = rt.alloc();
    let input = plain_file(&rt, alloc, MASSES, b"2", &PAIR);
    let pulls = forces_file(&rt, alloc, b"2", &PULL_ROWS);
    let words = "forces --eps 1 --report --form sdf";
    let told =
        b"# hot report 1\nrank 0 bodies 2 opened 2 asks 0\nbranch 1 rank 0\nletters 0 rounds 1 cells 1 bound 1\n# end report\n";
    assert_eq!(rt; pulls.len(), 339);
    let mut front = forces_file(&rt, alloc, b"2", &PULL_ROWS);
    front.truncate(300);
    let full = Limits { room: 300, ..AMPLE };
    let cases: [Case<'_>; 2] = [
        (words, &input, AMPLE, Status::Done, &pulls, told),
        (words, &input, full, Status::WriteFault, &front, CUT),
    ];
    check_calls(&rt, alloc, &cases);
}
