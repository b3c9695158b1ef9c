// Lists of files, and the answers to them.
use crate::files::{PIECES, Placed, Verdict, bodies_are, file_of, verdict_of};
use body_file::{BodyFault, FileFault, ReadError, read_bodies};
use body_set::BodySet;
use hot_io::MemSource;
use hot_units::Axis;
use sdf_header::HeaderFault;
use sdf_rows::RowFault;
use std::alloc::Global;
use std::process::Abort;

/// The answer to a list of files of these names, where the files `a` and `b` have these bytes, and a
/// read fails behind so many bytes of all.
fn read(
    rt: &impl Abort,
    alloc: Global,
    names: &[&str],
    a: &[u8],
    b: &[u8],
    piece: usize,
    stop: Option<usize>,
) -> Result<BodySet, ReadError> {
    assert!(rt; 1 <= names.len() && names.len() <= 16);
    let mut source = MemSource::new(alloc, piece.max(1)).expect(rt, "memory");
    source.add("a", a).expect(rt, "memory");
    source.add("b", b).expect(rt, "memory");
    if let Some(place) = stop {
        source.stop(place as u64);
    }
    read_bodies(alloc, &mut source, names)
}

/// The list of both files has this answer, in pieces of each size, where a read fails behind so many
/// bytes.
fn both_are(
    rt: &impl Abort,
    alloc: Global,
    a: &[u8],
    b: &[u8],
    stop: Option<usize>,
    want: Verdict,
    place: usize,
) {
    for piece in PIECES {
        let answer = read(rt, alloc, &["a", "b"], a, b, piece, stop);
        assert!(rt; verdict_of(&answer) == want, "input {place} by {piece}");
    }
}

/// Columns of one row, and of two.
const ONE: &[u8] = b"int cube_bits = 21; struct {int32_t x, y, z, mass;}[1];";

const TWO: &[u8] = b"int cube_bits = 21; struct {int32_t x, y, z, mass;}[2];";

/// A body of mass 1 in the corner, and one of mass 3 four units of the file beside it.
const FIRST: &[u8] = b"\0\0\0\0\0\0\0\0\0\0\0\0\x01\0\0\0";

const SECOND: &[u8] = b"\x04\0\0\0\0\0\0\0\0\0\0\0\x03\0\0\0";

const BOTH: &[u8] = b"\0\0\0\0\0\0\0\0\0\0\0\0\x01\0\0\0\x04\0\0\0\0\0\0\0\0\0\0\0\x03\0\0\0";

/// The bodies of both by key.
const BODIES: [Placed; 2] = [(0, 0, 0, 0, 1), (1, 1024, 0, 0, 3)];

/// The same by key, where the second stands first in the list.
const TURNED: [Placed; 2] = [(1, 0, 0, 0, 1), (0, 1024, 0, 0, 3)];

/// The list has these bodies by key, with their numbers as idents and with the weights 1.
fn list_is(
    rt: &impl Abort,
    alloc: Global,
    names: &[&str],
    a: &[u8],
    b: &[u8],
    bodies: &[Placed],
    idents: &[i128],
) {
    for piece in PIECES {
        let set = read(rt, alloc, names, a, b, piece, None).expect(rt, "bodies");
        let ordered = set.order(alloc).expect(rt, "memory");
        let weights = vec![in alloc; 1; idents.len()].expect(rt, "memory");
        bodies_are(rt, &ordered, bodies, idents, &weights);
    }
}

#[test]
fn a_file_cut_into_two(rt: HostRuntime) {
    let alloc = rt.alloc();
    let whole = file_of(&rt, alloc, TWO, BOTH);
    let a = file_of(&rt, alloc, ONE, FIRST);
    let b = file_of(&rt, alloc, ONE, SECOND);
    list_is(&rt, alloc, &["a"], &whole, b"", &BODIES, &[0, 1]);
    list_is(&rt, alloc, &["a", "b"], &a, &b, &BODIES, &[0, 1]);
    list_is(&rt, alloc, &["b", "a"], &a, &b, &TURNED, &[0, 1]);
}

/// A name may be given twice; its file is read twice, and its bodies are there twice.
#[test]
fn a_file_given_often(rt: HostRuntime) {
    let alloc = rt.alloc();
    let a = file_of(&rt, alloc, ONE, SECOND);
    let twice = [(0, 1024, 0, 0, 3), (1, 1024, 0, 0, 3)];
    list_is(&rt, alloc, &["a", "a"], &a, b"", &twice, &[0, 1]);
    let answer = read(&rt, alloc, &["a"; 16], &a, b"", 4096, None);
    assert!(rt; verdict_of(&answer) == Verdict::Bodies(16));
    let answer = read(&rt, alloc, &["a", "none"], &a, b"", 4096, None);
    assert!(rt; verdict_of(&answer) == Verdict::Broken);
}

/// Columns of velocities behind those of a body, of two rows.
const MOVING: &[u8] =
    b"int cube_bits = 21; struct {int32_t x, y, z, mass; int16_t vx, vy; int8_t vz;}[2];";

/// The first with the velocity 1, -2, 3, and the second with 0.
const MOVED: &[u8] = b"\0\0\0\0\0\0\0\0\0\0\0\0\x01\0\0\0\x01\0\xfe\xff\x03\
    \x04\0\0\0\0\0\0\0\0\0\0\0\x03\0\0\0\0\0\0\0\0";

/// A velocity in floating point on x, none on y, and the greatest whole number on z.
const PARTLY: &[u8] =
    b"int cube_bits = 21; struct {int32_t x, y, z, mass; float vx; uint64_t vz;}[1];";

const PART: &[u8] = b"\0\0\0\0\0\0\0\0\0\0\0\0\x01\0\0\0\0\0\x80\x3f\
    \xff\xff\xff\xff\xff\xff\xff\xff";

const STILL: [i128; 3] = [0, 0, 0];

const FAST: [i128; 3] = [1, -2, 3];

const PART_FAST: [i128; 3] = [0, 0, 18_446_744_073_709_551_615];

/// The rows of the list have these velocities, until they are taken.
fn velocities_are(
    rt: &impl Abort,
    alloc: Global,
    names: &[&str],
    a: &[u8],
    b: &[u8],
    want: &[[i128; 3]],
) {
    for piece in PIECES {
        let mut set = read(rt, alloc, names, a, b, piece, None).expect(rt, "bodies");
        assert_eq!(rt; set.len(), want.len());
        for (i, v) in want.iter().enumerate() {
            assert!(rt; set.velocity(i) == Some(*v));
            assert!(rt; set.body(i).expect(rt, "a row").row as usize == i);
        }
        assert!(rt; set.velocity(want.len()).is_none() && set.body(want.len()).is_none());
        let taken = set.take_velocities(alloc);
        for (i, v) in want.iter().enumerate() {
            assert!(rt; taken.get(i) == *v && set.velocity(i) == Some(STILL));
        }
        assert!(rt; taken.get(want.len()) == STILL);
    }
}

/// Rows of a file without columns of velocities have 0, wherever it stands in the list.
#[test]
fn velocities_of_a_list(rt: HostRuntime) {
    let alloc = rt.alloc();
    let a = file_of(&rt, alloc, ONE, FIRST);
    let b = file_of(&rt, alloc, MOVING, MOVED);
    let c = file_of(&rt, alloc, PARTLY, PART);
    velocities_are(&rt, alloc, &["a", "a"], &a, b"", &[STILL, STILL]);
    let between = [STILL, FAST, STILL, STILL];
    velocities_are(&rt, alloc, &["a", "b", "a"], &a, &b, &between);
    let around = [FAST, STILL, STILL, FAST, STILL];
    velocities_are(&rt, alloc, &["b", "a", "b"], &a, &b, &around);
    let behind = [FAST, STILL, PART_FAST];
    velocities_are(&rt, alloc, &["b", "a"], &c, &b, &behind);
}

const OTHER_CUBE: Verdict = Verdict::Refused(2, FileFault::OtherCube);

const CUT: Verdict = Verdict::Refused(2, FileFault::End(RowFault::Truncated { row: 1 }));

const TRAILING: Verdict = Verdict::Refused(2, FileFault::End(RowFault::Trailing));

const NO_MAGIC: Verdict = Verdict::Refused(2, FileFault::Header(HeaderFault::NoMagic));

const NO_STRUCT: Verdict = Verdict::Refused(2, FileFault::Header(HeaderFault::NoStruct));

const OUTSIDE: Verdict = Verdict::Refused(
    2,
    FileFault::Body(BodyFault::Outside {
        row: 1,
        axis: Axis::Y,
    }),
);

/// The statements and rows of a file behind one of one body, and the answer to both.
const BEHIND: [(&[u8], &[u8], Verdict); 10] = [
    (ONE, SECOND, Verdict::Bodies(2)),
    (TWO, BOTH, Verdict::Bodies(3)),
    (
        b"struct {uint8_t x, y, z;}[];",
        b"\x01\x02\x03\x04\x05\x06",
        Verdict::Bodies(3),
    ),
    (
        b"int cube_bits = 20; struct {int32_t x, y, z, mass;}[1];",
        SECOND,
        OTHER_CUBE,
    ),
    (
        b"int cube_z0 = -1; struct {int32_t x, y, z, mass;}[1];",
        b"\xff\xff",
        OTHER_CUBE,
    ),
    (b"int cube_bits = 20;", b"", NO_STRUCT),
    (ONE, b"\x04\0\0\0\0\0\0\0\0\0\0\0\x03\0\0", CUT),
    (ONE, b"", CUT),
    (ONE, BOTH, TRAILING),
    (ONE, b"\0\0\0\0\0\0\x20\0\0\0\0\0\0\0\0\0", OUTSIDE),
];

#[test]
fn faults_of_the_second_file(rt: HostRuntime) {
    let alloc = rt.alloc();
    let a = file_of(&rt, alloc, ONE, FIRST);
    for (place, (statements, rows, want)) in BEHIND.iter().enumerate() {
        let b = file_of(&rt, alloc, statements, rows);
        both_are(&rt, alloc, &a, &b, None, *want, place);
    }
    both_are(&rt, alloc, &a, b"", None, NO_MAGIC, BEHIND.len());
}

/// The first file's faults come first, and a read that fails hides those behind it.
#[test]
fn the_first_fault_of_both(rt: HostRuntime) {
    let alloc = rt.alloc();
    let a = file_of(&rt, alloc, ONE, FIRST);
    let b = file_of(&rt, alloc, ONE, b"");
    let cut = Verdict::Refused(1, FileFault::End(RowFault::Truncated { row: 0 }));
    both_are(&rt, alloc, &b, &b, None, cut, 0);
    both_are(&rt, alloc, &b, b"", None, cut, 1);
    let bytes = a.len().saturating_add(b.len());
    both_are(&rt, alloc, &a, b"# sdf", Some(a.len()), Verdict::Broken, 2);
    both_are(&rt, alloc, &a, &b, Some(bytes), Verdict::Broken, 3);
    let decided = Some(a.len().saturating_add(3));
    both_are(&rt, alloc, &a, b"# sdf", decided, NO_MAGIC, 4);
}

const BYTES: &[u8] = b"struct {uint8_t x, y, z; uint32_t mass;}[];";

/// The answer behind 256 bodies of mass 4,294,967,295 for one more, of this mass.
const SUMS: [(&[u8], Verdict); 2] = [
    (b"\0\0\0\0\x01\0\0", Verdict::Bodies(257)),
    (
        b"\0\0\0\x01\x01\0\0",
        Verdict::Refused(2, FileFault::Body(BodyFault::MassSum { row: 256 })),
    ),
];

#[test]
fn all_mass_of_both(rt: HostRuntime) {
    let alloc = rt.alloc();
    let mut a = file_of(&rt, alloc, BYTES, b"");
    for _ in 0..256 {
        a.extend_from_slice(b"\0\0\0\xff\xff\xff\xff")
            .expect(&rt, "memory");
    }
    for (place, (row, want)) in SUMS.iter().enumerate() {
        let b = file_of(&rt, alloc, BYTES, row);
        both_are(&rt, alloc, &a, &b, None, *want, place);
    }
}

/// A file may have 1,048,576 rows, and then the next may have none.
#[test]
fn most_rows_of_both(rt: HostRuntime) {
    let alloc = rt.alloc();
    let columns = b"struct {uint8_t x, y, z;}[];";
    let mut a = file_of(&rt, alloc, columns, b"");
    let len = a.len().saturating_add(3_145_728);
    a.resize(len, 1).expect(&rt, "memory");
    let b = file_of(&rt, alloc, columns, b"\x01\x01\x01");
    let answer = read(&rt, alloc, &["a", "b"], &a, &b, 4096, None);
    let many = FileFault::Body(BodyFault::TooMany);
    assert!(rt; verdict_of(&answer) == Verdict::Refused(2, many));
}
