// Bodies made from a number, as a set and as a file.
use body_maker::{sample_bodies, write_made};
use hot_io::MemSink;
use hot_units::{drawn, next_state};
use std::alloc::Global;
use std::process::Abort;

/// The file of one body with seed 0.
const FILE: &[u8] =
    b"# SDF\nparameter byteorder = 0x78563412;\nint cube_bits = 21;\nstruct {\n  int32_t x, y, z;\n}[1];\n# SDF-EOH\n\xaf\x80\x02\x00\x1d\x41\x03\x00\xcf\x5e\x13\x00";

/// The file of no bodies: the header alone.
const NO_BODIES: &[u8] =
    b"# SDF\nparameter byteorder = 0x78563412;\nint cube_bits = 21;\nstruct {\n  int32_t x, y, z;\n}[0];\n# SDF-EOH\n";

/// The first states behind seed 0, and the place that is drawn from them.
#[test]
fn draws_from_seed_zero(rt: HostRuntime) {
    let first = next_state(0);
    let second = next_state(first);
    assert!(rt; first == 1_442_695_040_888_963_407);
    assert!(rt; second == 1_876_011_003_808_476_466);
    assert!(rt; next_state(second) == 11_166_244_414_315_200_793);
    assert!(rt; [drawn(0), drawn(first), drawn(second)] == [164_015, 213_277, 1_269_455]);
}

/// The file of some bodies with seed 0 in a sink: all of it, or the front that has room, and a
/// failure.
fn file_is(rt: &impl Abort, alloc: Global, bodies: u32, file: &[u8], chunk: usize, room: usize) {
    assert!(rt; bodies <= 1 && 1 <= chunk && room <= 1000);
    let mut out = MemSink::new(alloc, chunk, room as u64).expect(rt, "memory");
    let outcome = write_made(&mut out, bodies, 0);
    assert_eq!(rt; outcome.is_err(), room < file.len());
    assert_eq!(rt; out.written(), &file[..room.min(file.len())]);
}

#[test]
fn files_of_one_body_and_of_none(rt: HostRuntime) {
    assert_eq!(rt; FILE.len(), 104 + 12);
    file_is(&rt, rt.alloc(), 1, FILE, 7, 200);
    file_is(&rt, rt.alloc(), 0, NO_BODIES, 200, 200);
    for room in 0..FILE.len() {
        file_is(&rt, rt.alloc(), 1, FILE, 5, room);
    }
}

#[test]
fn a_set_of_two_bodies(rt: HostRuntime) {
    let set = sample_bodies(rt.alloc(), 2, 0).expect(&rt, "memory");
    assert_eq!(rt; set.len(), 2);
    let ordered = set.order(rt.alloc()).expect(&rt, "memory");
    let bodies = ordered.bodies();
    // a coordinate counts 256 fine units, and the first body has the lower key
    let places = [
        (164_015 * 256, 213_277 * 256, 1_269_455 * 256),
        (841_411 * 256, 804_521 * 256, 1_176_207 * 256),
    ];
    assert_eq!(rt; bodies.len(), 2);
    for (row, body) in bodies.iter().enumerate() {
        assert_eq!(rt; (body.x, body.y, body.z), places[row]);
        assert_eq!(rt; (body.mass, body.row as usize), (1, row));
    }
    assert_eq!(rt; ordered.idents(), [0, 1].as_slice());
    assert_eq!(rt; ordered.weights(), [1, 1].as_slice());
}
