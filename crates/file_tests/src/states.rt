// States of the leapfrog as body files.
ghost use Rattle.std.specs.Prelude.{◌≤◌, length, All};
ghost use Rattle.sdf_rows.specs.Columns.{Is64Bits};

use crate::steps::{Row, state_of};
use hot_io::MemSink;
use hot_units::Axis;
use state_file::{
    files_have_states, files_undo, past_range, state_header_reads, states_read_back, write_state,
};
use std::alloc::Global;
use std::process::Abort;

/// The file of a state in a sink: all of it, or the front that has room, and a failure.
fn file_is(
    rt: &impl Abort,
    alloc: Global,
    unsigned: bool,
    rows: &[Row],
    idents: &[i128],
    file: &[u8],
    sink: (usize, usize),
)
    requires few { length rows.now ≤ 10 }
    requires named { All Is64Bits idents.now }
{
    let (chunk, room) = sink;
    let state = state_of(rt, alloc, rows);
    assert!(rt; past_range(&state).is_none());
    assert!(rt; idents.len() == state.len() && 1 <= chunk && room <= 1000);
    let mut out = MemSink::new(alloc, chunk, room as u64).expect(rt, "memory");
    let outcome = write_state(&mut out, unsigned, &state, idents);
    assert_eq!(rt; outcome.is_err(), room < file.len());
    assert_eq!(rt; out.written(), &file[..room.min(file.len())]);
}

/// The file of no bodies.
const NO_BODIES: &[u8] =
    b"# SDF\nparameter byteorder = 0x78563412;\nint cube_bits = 29;\nstruct {\n  \
    int32_t x, y, z;\n  uint32_t mass;\n  int64_t ident;\n  int64_t vx, vy, vz;\n}[0];\n\
    # SDF-EOH\n";

/// The ident -2 and velocities of -1 and 2^62, in two's complement.
const SIGNED: &[u8] = b"# SDF\nparameter byteorder = 0x78563412;\nint cube_bits = 29;\nstruct {\n  \
    int32_t x, y, z;\n  uint32_t mass;\n  int64_t ident;\n  int64_t vx, vy, vz;\n}[1];\n\
    # SDF-EOH\n\
    \x01\0\0\0\x02\x01\0\0\x03\0\0\0\x04\0\0\0\
    \xfe\xff\xff\xff\xff\xff\xff\xff\
    \xff\xff\xff\xff\xff\xff\xff\xff\0\0\0\0\0\0\0\0\0\0\0\0\0\0\0\x40";

/// The greatest mass and unsigned ident, and the least velocity.
const UNSIGNED: &[u8] =
    b"# SDF\nparameter byteorder = 0x78563412;\nint cube_bits = 29;\nstruct {\n  \
    int32_t x, y, z;\n  uint32_t mass;\n  uint64_t ident;\n  int64_t vx, vy, vz;\n}[1];\n\
    # SDF-EOH\n\
    \0\0\0\0\0\0\0\0\xff\xff\xff\x1f\xff\xff\xff\xff\
    \xff\xff\xff\xff\xff\xff\xff\xff\
    \0\0\0\0\0\0\0\0\0\0\0\0\0\0\0\x80\0\0\0\0\0\0\0\0";

#[test]
fn written_files(rt: HostRuntime) {
    let alloc = rt.alloc();
    let row = [([1, 258, 3, 4], [-1, 0, 1 << 62])];
    file_is(&rt, alloc, false, &row, &[-2], SIGNED, (5, 1000));
    let far = [([0, 0, 536_870_911, 4_294_967_295], [0, -(1 << 63), 0])];
    let greatest = [18_446_744_073_709_551_615];
    file_is(&rt, alloc, true, &far, &greatest, UNSIGNED, (1000, 1000));
    file_is(&rt, alloc, false, &[], &[], NO_BODIES, (3, 20));
}

/// -2^63 can be written, and 2^63 not; the second row's first such axis is y.
#[test]
fn a_velocity_past_the_range(rt: HostRuntime) {
    let rows = [
        ([1, 2, 3, 4], [0, 0, -(1 << 63)]),
        ([1, 2, 3, 4], [0, 1 << 63, 1 << 63]),
    ];
    let first = state_of(&rt, rt.alloc(), &rows[..1]);
    assert!(rt; past_range(&first).is_none());
    let (row, axis) = past_range(&state_of(&rt, rt.alloc(), &rows)).expect(&rt, "a place");
    assert_eq!(rt; row, 1);
    assert!(rt; axis == Axis::Y);
}

/// Laws say what they say by their clauses; calls of them show that nothing is asked.
#[test]
fn laws_ask_nothing(_rt: HostRuntime) {
    state_header_reads(true, 0);
    files_have_states();
    states_read_back();
    files_undo();
}
