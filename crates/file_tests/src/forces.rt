// Accelerations as text and as SDF files, byte for byte.
ghost use Rattle.std.specs.Prelude.{All};
ghost use Rattle.force_out.specs.Idents.{IsIdent};

use force_out::{force_sdf, force_text, values_come_back};
use hot_io::MemSink;
use hot_units::Acc3;
use std::alloc::Global;
use std::process::Abort;

const NOTHING: Acc3 = Acc3 {
    seen: 0,
    ax: 0,
    ay: 0,
    az: 0,
};

const PULLED: Acc3 = Acc3 {
    seen: 3,
    ax: -3145725,
    ay: 0,
    az: 1048575,
};

const FARTHEST: Acc3 = Acc3 {
    seen: 1,
    ax: 10,
    ay: -1099511627776,
    az: 1099511627776,
};

/// The text of forces in a sink: all of it, or the front that has room, and a failure.
fn text_is(
    rt: &impl Abort,
    alloc: Global,
    idents: &[i128],
    forces: &[Acc3],
    text: &[u8],
    chunk: usize,
    room: usize,
)
    requires idents { All IsIdent idents.now }
{
    assert!(rt; idents.len() == forces.len() && 1 <= chunk && room <= 1000);
    let mut out = MemSink::new(alloc, chunk, room as u64).expect(rt, "memory");
    let outcome = force_text(&mut out, idents, forces);
    assert_eq!(rt; outcome.is_err(), room < text.len());
    assert_eq!(rt; out.written(), &text[..room.min(text.len())]);
}

/// The text of two forces of the widest idents.
const WIDE_TEXT: &[u8] =
    b"# hot forces 1\n-9223372036854775808 -3145725 0 1048575\n18446744073709551615 10 -1099511627776 1099511627776\n# end 2\n";

/// The text of two forces of small idents.
const SMALL_TEXT: &[u8] = b"# hot forces 1\n7 -3145725 0 1048575\n8 0 0 0\n# end 2\n";

#[test]
fn worked_texts(rt: HostRuntime) {
    let alloc = rt.alloc();
    let wide = [-9223372036854775808, 18446744073709551615];
    let two = [PULLED, FARTHEST];
    text_is(&rt, alloc, &[], &[], b"# hot forces 1\n# end 0\n", 1, 100);
    text_is(
        &rt,
        alloc,
        &[0],
        &[NOTHING],
        b"# hot forces 1\n0 0 0 0\n# end 1\n",
        3,
        100,
    );
    text_is(&rt, alloc, &wide, &two, WIDE_TEXT, 7, 200);
    text_is(&rt, alloc, &[7, 8], &[PULLED, NOTHING], SMALL_TEXT, 64, 20);
}

const FRONT: &[u8] =
    b"# SDF\nparameter byteorder = 0x78563412;\nstruct {\n  int64_t ident_hi;\n  uint64_t ident_lo;\n  int64_t ax_hi;\n  uint64_t ax_lo;\n  int64_t ay_hi;\n  uint64_t ay_lo;\n  int64_t az_hi;\n  uint64_t az_lo;\n}[";

/// The forces on two bodies of masses 1 and 3, four units apart, with softening 1.
const FIRST: Acc3 = Acc3 {
    seen: 4,
    ax: 3145725,
    ay: 0,
    az: 0,
};

const SECOND: Acc3 = Acc3 {
    seen: 4,
    ax: -1048575,
    ay: 0,
    az: 0,
};

/// A force of -2^64 - 1 in x, of -2^64 in y and of 2^64 in z.
const STRONG: Acc3 = Acc3 {
    seen: 33554432,
    ax: -18446744073709551617,
    ay: -18446744073709551616,
    az: 18446744073709551616,
};

/// The rows of two forces with idents 0 and 1: ident, x, y and z, two columns a line.
const PULLED_ROWS: &[u8] = b"\0\0\0\0\0\0\0\0\0\0\0\0\0\0\0\0\
    \0\0\0\0\0\0\0\0\xfd\xff\x2f\0\0\0\0\0\
    \0\0\0\0\0\0\0\0\0\0\0\0\0\0\0\0\
    \0\0\0\0\0\0\0\0\0\0\0\0\0\0\0\0\
    \0\0\0\0\0\0\0\0\x01\0\0\0\0\0\0\0\
    \xff\xff\xff\xff\xff\xff\xff\xff\x01\0\xf0\xff\xff\xff\xff\xff\
    \0\0\0\0\0\0\0\0\0\0\0\0\0\0\0\0\
    \0\0\0\0\0\0\0\0\0\0\0\0\0\0\0\0";

/// The rows of two strong forces with the widest idents; two columns a line.
const STRONG_ROWS: &[u8] = b"\0\0\0\0\0\0\0\0\xff\xff\xff\xff\xff\xff\xff\xff\
    \xfe\xff\xff\xff\xff\xff\xff\xff\xff\xff\xff\xff\xff\xff\xff\xff\
    \xff\xff\xff\xff\xff\xff\xff\xff\0\0\0\0\0\0\0\0\
    \x01\0\0\0\0\0\0\0\0\0\0\0\0\0\0\0\
    \xff\xff\xff\xff\xff\xff\xff\xff\0\0\0\0\0\0\0\x80\
    \xfe\xff\xff\xff\xff\xff\xff\xff\xff\xff\xff\xff\xff\xff\xff\xff\
    \xff\xff\xff\xff\xff\xff\xff\xff\0\0\0\0\0\0\0\0\
    \x01\0\0\0\0\0\0\0\0\0\0\0\0\0\0\0";

/// The whole file of some rows.
fn file_of(rt: &impl Abort, alloc: Global, count: &[u8], rows: &[u8]) -> Vec<u8> {
    let mut bytes = Vec::from_slice(alloc, FRONT).expect(rt, "memory");
    for part in [count, b"];\n# SDF-EOH\n", rows] {
        bytes.extend_from_slice(part).expect(rt, "memory");
    }
    bytes
}

/// The file of forces in a sink: all of it, or the front that has room, and a failure.
fn file_is(
    rt: &impl Abort,
    alloc: Global,
    idents: &[i128],
    forces: &[Acc3],
    file: &[u8],
    chunk: usize,
    room: usize,
)
    requires idents { All IsIdent idents.now }
{
    assert!(rt; idents.len() == forces.len() && 1 <= chunk && room <= 1000);
    let mut out = MemSink::new(alloc, chunk, room as u64).expect(rt, "memory");
    let outcome = force_sdf(&mut out, idents, forces);
    assert_eq!(rt; outcome.is_err(), room < file.len());
    assert_eq!(rt; out.written(), &file[..room.min(file.len())]);
}

/// The same in a sink with room for all, and in one that fails within the second row.
fn files_are(
    rt: &impl Abort,
    alloc: Global,
    idents: &[i128],
    forces: &[Acc3],
    count: &[u8],
    rows: &[u8],
    chunk: usize,
)
    requires idents { All IsIdent idents.now }
{
    let file = file_of(rt, alloc, count, rows);
    for room in [999, 300] {
        file_is(rt, alloc, idents, forces, &file, chunk, room);
    }
}

#[test]
fn worked_files(rt: HostRuntime) {
    let alloc = rt.alloc();
    let wide = [18446744073709551615, -9223372036854775808];
    files_are(&rt, alloc, &[], &[], b"0", b"", 3);
    files_are(&rt, alloc, &[0, 1], &[FIRST, SECOND], b"2", PULLED_ROWS, 7);
    files_are(&rt, alloc, &wide, &[STRONG, STRONG], b"2", STRONG_ROWS, 64);
    values_come_back();
}
