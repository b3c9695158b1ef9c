// Calls on lists of files.
ghost use Rattle.std.specs.Prelude.{◌≡◌, None};

use super::{AMPLE, BROKEN, Ended, PULLS, check, input_of, joined, least_first, list, sink_of};
use crate::{Status, hot_main};
use hot_io::MemSource;
use std::alloc::Global;
use std::process::Abort;
use std::thread::Threads;
use wire::{MemWire, OpenGate};

/// The header of a file of one row, and of one without rows; the same with another cube; and one
/// whose masses have 64 bits.
const ONE: &[u8] =
    b"# SDF\nparameter byteorder = 0x78563412;\nint cube_bits = 21;\nstruct {int32_t x, y, z, mass;}[1];\n# SDF-EOH\n";

const NONE: &[u8] =
    b"# SDF\nparameter byteorder = 0x78563412;\nint cube_bits = 21;\nstruct {int32_t x, y, z, mass;}[0];\n# SDF-EOH\n";

const OTHER: &[u8] =
    b"# SDF\nparameter byteorder = 0x78563412;\nint cube_bits = 20;\nstruct {int32_t x, y, z, mass;}[1];\n# SDF-EOH\n";

const WIDE: &[u8] =
    b"# SDF\nparameter byteorder = 0x78563412;\nint cube_bits = 21;\nstruct {int32_t x, y, z; uint64_t mass;}[1];\n# SDF-EOH\n";

/// A file: its name, its header, its numbers, and how many bytes are cut off at its end.
type Part<'a> = (&'a str, &'a [u8], &'a [i32], usize);

/// The words behind `forces --eps 1 --theta 0/1`, the files that are there, and how the call ends.
type Case<'a> = (&'a str, &'a [Part<'a>], Status, &'a [u8], &'a [u8]);

/// A source of these files, which gives one byte at a time.
fn source_of(rt: &impl Abort, alloc: Global, parts: &[Part<'_>]) -> MemSource
    ensures fresh { (result.faults ≡ 0) × (result.opens ≡ 0) × (result.left ≡ None) }
{
    let mut source = input_of(rt, alloc, b"", AMPLE.stop);
    'parts: for part in parts {
        let (name, header, numbers, cut) = *part;
        let rows = least_first(rt, alloc, numbers);
        let bytes = joined(rt, alloc, &[header, &rows]);
        let length = bytes.len().saturating_sub(cut);
        source.add(name, &bytes[..length]).expect(rt, "memory");
    }
    source
}

/// One call on these files.
fn call_on<R: Threads + Sync + Abort>(
    rt: &R,
    alloc: Global,
    names: &str,
    parts: &[Part<'_>],
) -> Ended {
    let mut wire = MemWire::new(alloc).expect(rt, "memory");
    let mut source = source_of(rt, alloc, parts);
    let mut words = list(rt, alloc, "forces --eps 1 --theta 0/1");
    for name in names.split_whitespace() {
        words.push(name).expect(rt, "memory");
    }
    let mut out = sink_of(rt, alloc, 1, AMPLE.room);
    let mut err = sink_of(rt, alloc, 5, AMPLE.err_room);
    let status = hot_main(
        rt,
        alloc,
        &words,
        &mut source,
        &mut out,
        &mut err,
        &mut wire,
        &OpenGate,
    );
    Ended { status, out, err }
}

fn check_all<R: Threads + Sync + Abort>(rt: &R, alloc: Global, cases: &[Case<'_>]) {
    for case in cases {
        let (names, parts, status, out, err) = *case;
        let ended = call_on(rt, alloc, names, parts);
        check(rt, &ended, status, out, err);
    }
}

const FIRST: Part<'static> = ("a", ONE, &[0, 0, 0, 1], 0);

const LIGHT: Part<'static> = ("a", ONE, &[0, 0, 0, 0], 0);

const SECOND: Part<'static> = ("b", ONE, &[4, 0, 0, 3], 0);

/// Two bodies at one place.
const TWINS: &[u8] = b"# hot forces 1\n0 0 0 0\n1 0 0 0\n# end 2\n";

/// One body.
const ALONE: &[u8] = b"# hot forces 1\n0 0 0 0\n# end 1\n";

#[test]
fn several_files_are_one_list(rt: HostRuntime) {
    let alloc = rt.alloc();
    let cases: [Case<'_>; 5] = [
        ("a b", &[FIRST, SECOND], Status::Done, PULLS, b""),
        (
            "a -",
            &[FIRST, ("-", ONE, &[4, 0, 0, 3], 0)],
            Status::Done,
            PULLS,
            b"",
        ),
        ("a a", &[FIRST], Status::Done, TWINS, b""),
        (
            "a e b",
            &[FIRST, ("e", NONE, &[], 0), SECOND],
            Status::Done,
            PULLS,
            b"",
        ),
        (
            "w",
            &[("w", WIDE, &[0, 0, 0, -1, 0], 0)],
            Status::Done,
            ALONE,
            b"",
        ),
    ];
    check_all(&rt, alloc, &cases);
}

#[test]
fn the_first_fault_names_its_file(rt: HostRuntime) {
    let alloc = rt.alloc();
    let cases: [Case<'_>; 7] = [
        (
            "a b",
            &[FIRST, ("b", OTHER, &[4, 0, 0, 3], 0)],
            Status::Input,
            b"",
            b"hot: H14 cube differs in file 2\n",
        ),
        (
            "a b",
            &[FIRST, ("b", ONE, &[4, 0, 0, 3], 1)],
            Status::Input,
            b"",
            b"hot: B1 row 1 is cut short in file 2\n",
        ),
        (
            "a b",
            &[LIGHT, ("b", OTHER, &[4, 0, 0, 3], 1)],
            Status::Input,
            b"",
            b"hot: B4 row 0 mass out of range in file 1\n",
        ),
        (
            "a c",
            &[LIGHT],
            Status::Input,
            b"",
            b"hot: B4 row 0 mass out of range in file 1\n",
        ),
        ("a c", &[FIRST], Status::ReadFault, b"", BROKEN),
        (
            "a e",
            &[FIRST, ("e", b"", &[], 0)],
            Status::Input,
            b"",
            b"hot: H1 not an SDF file in file 2\n",
        ),
        (
            "w",
            &[("w", WIDE, &[0, 0, 0, 0, 1], 0)],
            Status::Input,
            b"",
            b"hot: B4 row 0 mass out of range\n",
        ),
    ];
    check_all(&rt, alloc, &cases);
}
