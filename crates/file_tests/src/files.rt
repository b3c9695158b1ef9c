// Files and the answers to them.
use body_file::{BodyFault, FileFault, ReadError, read_bodies};
use body_set::BodySet;
use hot_io::MemSource;
use hot_units::Axis;
use key_order::Ordered;
use sdf_header::{ColName, HeaderFault};
use sdf_rows::RowFault;
use std::alloc::Global;
use std::process::Abort;

/// How many bytes a source gives in one read.
pub const PIECES: [usize; 3] = [1, 7, 4096];

/// Three columns of one byte each, and rows up to the end.
const SMALL: &[u8] = b"struct {int8_t x, y, z;}[];";

/// Columns of four bytes, and one row.
const WORDS: &[u8] = b"struct {int32_t x, y, z;}[1];";

/// A file of one body.
const OTHERS: &[u8] = b"# SDF\nstruct {int8_t x, y, z;}[1];\n# SDF-EOH\n\0\0\0";

/// The answer to files, without the bodies; a fault with the number of its file.
#[derive(Clone, Copy, PartialEq)]
pub enum Verdict {
    Bodies(usize),
    Broken,
    Refused(usize, FileFault),
    Memory,
}

pub fn verdict_of(answer: &Result<BodySet, ReadError>) -> Verdict {
    match answer {
        Ok(set) => Verdict::Bodies(set.len()),
        Err(ReadError::Broken) => Verdict::Broken,
        Err(ReadError::Refused(found)) => Verdict::Refused(found.file, found.fault),
        Err(ReadError::Memory) => Verdict::Memory,
    }
}

/// A file of these statements and rows.
pub fn file_of(rt: &impl Abort, alloc: Global, statements: &[u8], rows: &[u8]) -> Vec<u8> {
    let mut bytes = Vec::from_slice(alloc, b"# SDF\n").expect(rt, "memory");
    for part in [statements, b"\n# SDF-EOH\n", rows] {
        bytes.extend_from_slice(part).expect(rt, "memory");
    }
    bytes
}

/// The answer to the file of this name, where the file `bodies` has these bytes and a file `others`
/// has three zeros.
fn read(
    rt: &impl Abort,
    alloc: Global,
    name: &str,
    bytes: &[u8],
    piece: usize,
    stop: Option<usize>,
) -> Result<BodySet, ReadError> {
    let mut source = MemSource::new(alloc, piece.max(1)).expect(rt, "memory");
    source.add("bodies", bytes).expect(rt, "memory");
    source.add("others", OTHERS).expect(rt, "memory");
    if let Some(place) = stop {
        source.stop(place as u64);
    }
    read_bodies(alloc, &mut source, &[name])
}

/// The file of these bytes has this answer, in pieces of each size, where a read fails behind so
/// many bytes.
fn verdict_is(
    rt: &impl Abort,
    alloc: Global,
    bytes: &[u8],
    stop: Option<usize>,
    want: Verdict,
    place: usize,
) {
    for piece in PIECES {
        let answer = read(rt, alloc, "bodies", bytes, piece, stop);
        assert!(rt; verdict_of(&answer) == want, "input {place} by {piece}");
    }
}

/// Row, place and mass of a body.
pub type Placed = (u32, u32, u32, u32, u32);

/// The bodies of a file by key, read in pieces of this size.
fn ordered_of(rt: &impl Abort, alloc: Global, file: &[u8], piece: usize) -> Ordered {
    let set = read(rt, alloc, "bodies", file, piece, None).expect(rt, "bodies");
    set.order(alloc).expect(rt, "memory")
}

/// These are the bodies, with idents and weights.
pub fn bodies_are(
    rt: &impl Abort,
    ordered: &Ordered,
    bodies: &[Placed],
    idents: &[i128],
    weights: &[u32],
) {
    assert!(rt; ordered.bodies().len() == bodies.len());
    for (body, want) in ordered.bodies().iter().zip(bodies.iter()) {
        assert!(rt; (body.row, body.x, body.y, body.z, body.mass) == *want);
    }
    assert!(rt; ordered.idents() == idents);
    assert!(rt; ordered.weights() == weights);
}

/// Statements, rows, and the bodies by key, idents and weights that they give.
const GIVEN: [(&[u8], &[u8], &[Placed], &[i128], &[u32]); 5] = [
    (SMALL, b"", &[], &[], &[]),
    (
        WORDS,
        b"\x03\0\0\0\x02\0\0\0\x01\0\0\0",
        &[(0, 768, 512, 256, 1)],
        &[0],
        &[1],
    ),
    (
        b"parameter byteorder = 0x12345678; struct {int32_t x, y, z;}[1];",
        b"\0\0\0\x03\0\0\0\x02\0\0\0\x01",
        &[(0, 768, 512, 256, 1)],
        &[0],
        &[1],
    ),
    (
        b"struct {int8_t x, y, z; int16_t ident; int8_t work;}[2];",
        b"\x09\0\0\x84\x03\x05\x01\0\0\x11\0\0",
        &[(1, 256, 0, 0, 1), (0, 2304, 0, 0, 1)],
        &[900, 17],
        &[5, 0],
    ),
    (
        b"struct {int32_t x, y, z; uint32_t mass; int64_t ident; uint32_t work;}[];",
        b"\xff\xff\x1f\0\xff\xff\x1f\0\xff\xff\x1f\0\xff\xff\xff\xff\xfe\xff\xff\xff\xff\xff\xff\xff\xff\xff\xff\xff",
        &[(0, 536_870_656, 536_870_656, 536_870_656, 4_294_967_295)],
        &[-2],
        &[4_294_967_295],
    ),
];

#[test]
fn bodies_of_files(rt: HostRuntime) {
    let alloc = rt.alloc();
    for (statements, rows, bodies, idents, weights) in &GIVEN {
        let file = file_of(&rt, alloc, statements, rows);
        for piece in PIECES {
            let ordered = ordered_of(&rt, alloc, &file, piece);
            bodies_are(&rt, &ordered, bodies, idents, weights);
        }
    }
}

const FLOAT: &[u8] = b"struct {float x; int32_t y, z;}[1];";

const HEAVY_ROWS: &[u8] = b"struct {int8_t x, y, z; uint64_t mass; int64_t work;}[2];";

const TWO: &[u8] = b"struct {int8_t x, y, z;}[2];";

const NOT_WHOLE: Verdict = Verdict::Refused(
    1,
    FileFault::Header(HeaderFault::NotWhole(ColName::X)),
);

const OUTSIDE_X: Verdict = Verdict::Refused(
    1,
    FileFault::Body(BodyFault::Outside {
        row: 0,
        axis: Axis::X,
    }),
);

const OUTSIDE_Y: Verdict = Verdict::Refused(
    1,
    FileFault::Body(BodyFault::Outside {
        row: 0,
        axis: Axis::Y,
    }),
);

const OUTSIDE_Z: Verdict = Verdict::Refused(
    1,
    FileFault::Body(BodyFault::Outside {
        row: 0,
        axis: Axis::Z,
    }),
);

const SECOND_OUTSIDE: Verdict = Verdict::Refused(
    1,
    FileFault::Body(BodyFault::Outside {
        row: 1,
        axis: Axis::Z,
    }),
);

const HEAVY: Verdict = Verdict::Refused(1, FileFault::Body(BodyFault::MassRange { row: 0 }));

const WORK_RANGE: Verdict = Verdict::Refused(1, FileFault::Body(BodyFault::WorkRange { row: 0 }));

const CUT: Verdict = Verdict::Refused(1, FileFault::End(RowFault::Truncated { row: 1 }));

const TRAILING: Verdict = Verdict::Refused(1, FileFault::End(RowFault::Trailing));

/// The statements, what follows the header, how many bytes of that are given before a read fails,
/// the answer.
const VERDICTS: [(&[u8], &[u8], Option<usize>, Verdict); 26] = [
    (FLOAT, b"", None, NOT_WHOLE),
    (FLOAT, b"", Some(0), NOT_WHOLE),
    (FLOAT, b"\0\0\0\0\0\0\0\0\0\0\0\0", None, NOT_WHOLE),
    (WORDS, b"\0\0\x20\0\0\0\x20\0\0\0\x20\0", None, OUTSIDE_X),
    (
        WORDS,
        b"\xff\xff\x1f\0\0\0\x20\0\xff\xff\xff\xff",
        None,
        OUTSIDE_Y,
    ),
    (WORDS, b"\0\0\0\0\0\0\0\0\0\0\x20\0", None, OUTSIDE_Z),
    (SMALL, b"\x01\x02\x03\x04\x05\xff", None, SECOND_OUTSIDE),
    (
        HEAVY_ROWS,
        b"\0\0\xff\0\0\0\0\0\0\0\0\0\0\0\0\x01\0\0\0",
        None,
        OUTSIDE_Z,
    ),
    (
        HEAVY_ROWS,
        b"\0\0\0\0\0\0\0\0\0\0\0\0\0\0\0\x01\0\0\0",
        None,
        HEAVY,
    ),
    (
        HEAVY_ROWS,
        b"\0\0\0\0\0\0\0\x01\0\0\0\0\0\0\0\0\0\0\0",
        None,
        HEAVY,
    ),
    (
        HEAVY_ROWS,
        b"\0\0\0\xff\xff\xff\xff\0\0\0\0\0\0\0\0\x01\0\0\0",
        None,
        WORK_RANGE,
    ),
    (
        HEAVY_ROWS,
        b"\0\0\0\xff\xff\xff\xff\0\0\0\0\0\0\0\0\0\0\0\0",
        None,
        CUT,
    ),
    (TWO, b"\x01\x02\x03", None, CUT),
    (TWO, b"\x01\x02\x03\x04\x05", None, CUT),
    (SMALL, b"\x01\x02\x03\x04\x05", None, CUT),
    (SMALL, b"\x01\x02\xff\x04", None, OUTSIDE_Z),
    (TWO, b"\x01\x02\x03\x04\x05\x06\x07", None, TRAILING),
    (TWO, b"\x01\x02\x03\x04\x05\xff\x07", None, SECOND_OUTSIDE),
    (TWO, b"\x01\x02\x03\x04\x05\x06", Some(0), Verdict::Broken),
    (TWO, b"\x01\x02\xff\x04\x05\x06", Some(2), Verdict::Broken),
    (TWO, b"\x01\x02\xff\x04\x05\x06", Some(3), OUTSIDE_Z),
    (TWO, b"\x01\x02\x03\x04\x05", Some(5), Verdict::Broken),
    (TWO, b"\x01\x02\x03\x04\x05\x06", Some(6), Verdict::Broken),
    (
        TWO,
        b"\x01\x02\x03\x04\x05\x06\x07",
        Some(6),
        Verdict::Broken,
    ),
    (TWO, b"\x01\x02\x03\x04\x05\x06\x07", Some(7), TRAILING),
    (
        TWO,
        b"\x01\x02\x03\x04\x05\x06",
        Some(7),
        Verdict::Bodies(2),
    ),
];

#[test]
fn verdicts(rt: HostRuntime) {
    let alloc = rt.alloc();
    for (place, (statements, rows, stop, want)) in VERDICTS.iter().enumerate() {
        let file = file_of(&rt, alloc, statements, rows);
        let front = file.len().saturating_sub(rows.len());
        let stop = stop.map(|place: usize| front.saturating_add(place));
        verdict_is(&rt, alloc, &file, stop, *want, place);
    }
}

const NO_MAGIC: Verdict = Verdict::Refused(1, FileFault::Header(HeaderFault::NoMagic));

const NO_END: Verdict = Verdict::Refused(1, FileFault::Header(HeaderFault::NoEnd));

const TOO_LONG: Verdict = Verdict::Refused(1, FileFault::Header(HeaderFault::TooLong));

/// The first bytes, how many blanks follow, how many bytes are given before a read fails, the
/// answer.
const UNENDED: [(&[u8], usize, Option<usize>, Verdict); 9] = [
    (b"", 0, None, NO_MAGIC),
    (b"# SD", 0, None, NO_MAGIC),
    (b"# SD", 0, Some(4), Verdict::Broken),
    (b"# sdf", 0, Some(2), Verdict::Broken),
    (b"# sdf", 0, Some(3), NO_MAGIC),
    (b"# SDF", 0, None, NO_END),
    (b"# SDF", 65_530, None, NO_END),
    (b"# SDF", 65_531, Some(65_535), Verdict::Broken),
    (b"# SDF", 65_531, Some(65_536), TOO_LONG),
];

#[test]
fn headers_without_an_end(rt: HostRuntime) {
    let alloc = rt.alloc();
    for (place, (front, blanks, stop, want)) in UNENDED.iter().enumerate() {
        let mut bytes = Vec::from_slice(alloc, front).expect(&rt, "memory");
        bytes
            .resize(front.len().saturating_add(*blanks), b' ')
            .expect(&rt, "memory");
        verdict_is(&rt, alloc, &bytes, *stop, *want, place);
    }
}

#[test]
fn names(rt: HostRuntime) {
    let alloc = rt.alloc();
    let file = file_of(&rt, alloc, SMALL, b"");
    for (name, want) in [
        ("bodies", Verdict::Bodies(0)),
        ("others", Verdict::Bodies(1)),
        ("none", Verdict::Broken),
        ("", Verdict::Broken),
    ] {
        let answer = read(&rt, alloc, name, &file, 7, None);
        assert!(rt; verdict_of(&answer) == want, "{name}");
    }
}
