// Rows of body files: numbers of each type, and which rows and faults small files have.
use hot_units::RawRow;
use sdf_header::{HeaderReader, Layout, Order};
use sdf_rows::{RowFault, RowStep, Rows};
use std::alloc::{AllocError, Global};
use std::process::Abort;

const LEAST: &[u8] = b"# SDF\nparameter byteorder = 0x78563412;\nstruct {";

const MOST: &[u8] = b"# SDF\nparameter byteorder = 0x12345678;\nstruct {";

fn joined(rt: &impl Abort, alloc: Global, parts: &[&[u8]]) -> Vec<u8> {
    let mut bytes = Vec::new(alloc);
    for part in parts {
        bytes.extend_from_slice(*part).expect(rt, "memory");
    }
    bytes
}

/// The layout of the header that this text begins.
fn layout_of(rt: &impl Abort, alloc: Global, text: &[u8]) -> Layout {
    let mut reader = HeaderReader::new(alloc).expect(rt, "memory");
    let _ = reader.feed(text);
    let _ = reader.feed(b"\n# SDF-EOH\n");
    reader.finish().expect(rt, "a good header")
}

/// The rows of the bytes in pieces of this size, and how they end.
fn read(
    alloc: Global,
    mut rows: Rows,
    bytes: &[u8],
    size: usize,
) -> Result<(Vec<RawRow>, Result<u64, RowFault>), AllocError> {
    let mut given = Vec::new(alloc);
    let mut rest = bytes;
    for _ in 0..bytes.len() + 1 {
        let piece = &rest[..size.min(rest.len())];
        if piece.is_empty() {
            break;
        }
        let Ok(step) = rows.feed(piece) else { break };
        if let Some(row) = step.row {
            given.push(row)?;
        }
        rest = &rest[step.taken..];
    }
    Ok((given, rows.finish()))
}

/// Bytes in pieces of this size have these rows, and this end.
fn rows_are(
    rt: &impl Abort,
    alloc: Global,
    layout: Layout,
    bytes: &[u8],
    size: usize,
    want: &[RawRow],
    end: Result<u64, RowFault>,
) {
    let (rows, ended) = read(alloc, Rows::new(layout), bytes, size).expect(rt, "memory");
    assert_eq!(rt; rows.as_slice(), want, "by {size}");
    assert_eq!(rt; ended, end, "by {size}");
}

/// A row with coordinates and a number, and no other column.
fn plain(x: i128, y: i128, z: i128, ident: i128) -> RawRow {
    RawRow {
        x,
        y,
        z,
        mass: 1,
        ident,
        work: 1,
        vx: None,
        vy: None,
        vz: None,
    }
}

/// The order of the bytes, the type of a number, its bytes and its value.
const NUMBERS: [(Order, &[u8], &[u8], i128); 16] = [
    (Order::Least, b"int8_t", b"\x80", -128),
    (Order::Most, b"int8_t", b"\x80", -128),
    (Order::Least, b"unsigned char", b"\x80", 128),
    (Order::Most, b"uint8_t", b"\x80", 128),
    (Order::Least, b"short", b"\x00\x80", -32_768),
    (Order::Most, b"int16_t", b"\x00\x80", 128),
    (Order::Least, b"uint16_t", b"\x00\x80", 32_768),
    (Order::Most, b"unsigned short", b"\x00\x80", 128),
    (Order::Least, b"int", b"\x00\x00\x00\x80", -2_147_483_648),
    (Order::Most, b"int32_t", b"\x00\x00\x00\x80", 128),
    (Order::Least, b"uint32_t", b"\x01\x02\x03\x04", 67_305_985),
    (
        Order::Most,
        b"unsigned int",
        b"\x01\x02\x03\x04",
        16_909_060,
    ),
    (
        Order::Least,
        b"int64_t",
        b"\xff\xff\xff\xff\xff\xff\xff\xff",
        -1,
    ),
    (
        Order::Most,
        b"int64_t",
        b"\xff\xff\xff\xff\xff\xff\xff\xfe",
        -2,
    ),
    (
        Order::Least,
        b"uint64_t",
        b"\xff\xff\xff\xff\xff\xff\xff\xff",
        18_446_744_073_709_551_615,
    ),
    (
        Order::Most,
        b"uint64_t",
        b"\x00\x00\x00\x00\x00\x00\x01\x00",
        256,
    ),
];

/// A row of this number as x, and 7 and 9 as y and z.
fn number_is(rt: &impl Abort, alloc: Global, order: Order, kind: &[u8], bytes: &[u8], value: i128) {
    let front = match order {
        Order::Least => LEAST,
        Order::Most => MOST,
    };
    let header = joined(rt, alloc, &[front, kind, b" x; uint8_t y, z;}[];"]);
    let layout = layout_of(rt, alloc, &header);
    let row = joined(rt, alloc, &[bytes, b"\x07\x09"]);
    rows_are(rt, alloc, layout, &row, 4, &[plain(value, 7, 9, 0)], Ok(1));
}

#[test]
fn numbers(rt: HostRuntime) {
    for (order, kind, bytes, value) in &NUMBERS {
        number_is(&rt, rt.alloc(), *order, kind, bytes, *value);
    }
}

/// Bytes behind the header of these columns have these rows and this end, in pieces of every size.
fn file_is(
    rt: &impl Abort,
    alloc: Global,
    columns: &[u8],
    bytes: &[u8],
    want: &[RawRow],
    end: Result<u64, RowFault>,
) {
    let layout = layout_of(rt, alloc, &joined(rt, alloc, &[LEAST, columns]));
    for size in [1, 2, 5, 4096] {
        rows_are(rt, alloc, layout, bytes, size, want, end);
    }
}

const CUT_FIRST: Result<u64, RowFault> = Err(RowFault::Truncated { row: 0 });

const CUT_SECOND: Result<u64, RowFault> = Err(RowFault::Truncated { row: 1 });

const TRAILING: Result<u64, RowFault> = Err(RowFault::Trailing);

const NONE: &[u8] = b"int8_t x, y, z;}[0];";

const ONE: &[u8] = b"int8_t x, y, z;}[1];";

const TWO: &[u8] = b"int8_t x, y, z;}[2];";

const FREE: &[u8] = b"int8_t x, y, z;}[];";

/// Columns with a stated number of rows, how many of the bytes 1, 2, 3, 4, 5 and 6 follow, how many
/// rows these are, and the end.
const STATED: [(&[u8], usize, usize, Result<u64, RowFault>); 12] = [
    (NONE, 0, 0, Ok(0)),
    (NONE, 1, 0, TRAILING),
    (ONE, 4, 1, TRAILING),
    (TWO, 0, 0, CUT_FIRST),
    (TWO, 2, 0, CUT_FIRST),
    (TWO, 3, 1, CUT_SECOND),
    (TWO, 4, 1, CUT_SECOND),
    (TWO, 6, 2, Ok(2)),
    (FREE, 0, 0, Ok(0)),
    (FREE, 3, 1, Ok(1)),
    (FREE, 6, 2, Ok(2)),
    (FREE, 5, 1, CUT_SECOND),
];

#[test]
fn stated_numbers_of_rows(rt: HostRuntime) {
    let both = [plain(1, 2, 3, 0), plain(4, 5, 6, 1)];
    for (columns, bytes, rows, end) in &STATED {
        assert!(rt; *bytes <= 6 && *rows <= 2);
        let bytes = &b"\x01\x02\x03\x04\x05\x06"[..*bytes];
        file_is(&rt, rt.alloc(), columns, bytes, &both[..*rows], *end);
    }
}

/// Columns of all kinds, with others between them.
const GAPS: &[u8] =
    b"float a; int16_t z; uint8_t work; float b[2]; int8_t y; int64_t ident; int8_t x, mass; double c; int8_t vx; float vy; uint16_t vz;}[1];";

/// A row of these columns.
const GAP_BYTES: &[u8] =
    b"aaaa\x01\x02\x00bbbbbbbb\x05\x03\x00\x00\x00\x00\x00\x00\x00\xff\x07cccccccc\xfevvvv\x01\x00";

#[test]
fn columns_with_gaps(rt: HostRuntime) {
    let alloc = rt.alloc();
    let mixed = RawRow {
        x: -1,
        y: 5,
        z: 513,
        mass: 7,
        ident: 3,
        work: 0,
        vx: Some(-2),
        vy: None,
        vz: Some(1),
    };
    file_is(&rt, alloc, GAPS, GAP_BYTES, &[mixed], Ok(1));
    let gap = [0; 1021];
    let bytes = joined(&rt, alloc, &[b"\x01", &gap, b"\x02\x03"]);
    let wide = b"uint8_t x; char gap[1021]; uint8_t y, z;}[];";
    file_is(&rt, alloc, wide, &bytes, &[plain(1, 2, 3, 0)], Ok(1));
}

#[test]
fn answers(rt: HostRuntime) {
    let header = b"# SDF\nint mass = 5;\nstruct {int8_t x, y, z;}[1];";
    let mut rows = Rows::new(layout_of(&rt, rt.alloc(), header));
    assert_eq!(rt; rows.finish(), CUT_FIRST);
    let step = RowStep {
        taken: 2,
        row: None,
    };
    assert_eq!(rt; rows.feed(b"\x01\x02"), Ok(step));
    let row = RawRow {
        mass: 5,
        ..plain(1, 2, 3, 0)
    };
    let step = RowStep {
        taken: 1,
        row: Some(row),
    };
    assert_eq!(rt; rows.feed(b"\x03\x04\x05"), Ok(step));
    assert_eq!(rt; rows.finish(), Ok(1));
    assert_eq!(rt; rows.feed(b"\x04"), Err(RowFault::Trailing));
    assert_eq!(rt; rows.feed(b"\x05\x06"), Err(RowFault::Trailing));
    assert_eq!(rt; rows.finish(), TRAILING);
}

/// Bytes behind so many rows of other files have these rows and this end, in pieces of every size.
fn rows_behind(
    rt: &impl Abort,
    alloc: Global,
    columns: &[u8],
    first: u64,
    bytes: &[u8],
    want: &[RawRow],
    end: Result<u64, RowFault>,
) {
    assert!(rt; first <= 1_048_576);
    let layout = layout_of(rt, alloc, &joined(rt, alloc, &[LEAST, columns]));
    for size in [1, 2, 5, 4096] {
        let rows = Rows::from_row(layout, first);
        let (rows, ended) = read(alloc, rows, bytes, size).expect(rt, "memory");
        assert_eq!(rt; rows.as_slice(), want, "by {size}");
        assert_eq!(rt; ended, end, "by {size}");
    }
}

/// A row that is cut short is named by its number over all files, and so is a row without an ident;
/// the end counts the rows of this file.
#[test]
fn rows_behind_other_files(rt: HostRuntime) {
    let alloc = rt.alloc();
    let both = [plain(1, 2, 3, 7), plain(4, 5, 6, 8)];
    let bytes = b"\x01\x02\x03\x04\x05\x06";
    rows_behind(&rt, alloc, FREE, 7, bytes, &both, Ok(2));
    rows_behind(&rt, alloc, TWO, 7, bytes, &both, Ok(2));
    rows_behind(&rt, alloc, ONE, 7, bytes, &both[..1], TRAILING);
    let cut = Err(RowFault::Truncated { row: 8 });
    rows_behind(&rt, alloc, FREE, 7, &bytes[..5], &both[..1], cut);
    rows_behind(&rt, alloc, TWO, 7, &bytes[..3], &both[..1], cut);
    let last = [plain(1, 2, 3, 1_048_576)];
    rows_behind(&rt, alloc, FREE, 1_048_576, &bytes[..3], &last, Ok(1));
    let cut = Err(RowFault::Truncated { row: 1_048_576 });
    rows_behind(&rt, alloc, FREE, 1_048_576, &bytes[..2], &[], cut);
    let ident = b"uint8_t x, y, z, ident;}[];";
    let named = [plain(1, 2, 3, 4)];
    rows_behind(&rt, alloc, ident, 7, &bytes[..4], &named, Ok(1));
}
