// Sets of bodies: which rows are refused, and the order by key.
ghost use Rattle.std.specs.Prelude.{◌≤◌};
ghost use Rattle.hot_units.specs.Limits.{fine_bits};

use crate::samples::row_at;
use body_set::{BodySet, PushError};
use hot_units::{Axis, Cube, RawRow};
use std::process::Abort;

fn cube_at(bits: u32, corner: i128) -> Cube
    requires low { 1 ≤ bits }
    requires high { bits ≤ fine_bits }
{
    Cube {
        bits,
        x0: corner,
        y0: corner,
        z0: corner,
    }
}

/// What a row is refused for.
#[derive(Clone, Copy, PartialEq)]
enum Refused {
    TooMany,
    Outside(u32, Axis),
    Mass(u32),
    Work(u32),
    Sum(u32),
    Memory,
}

fn refusal(answer: Result<(), PushError>) -> Option<Refused> {
    match answer.err()? {
        PushError::TooMany => Some(Refused::TooMany),
        PushError::Outside { row, axis } => Some(Refused::Outside(row, axis)),
        PushError::MassRange { row } => Some(Refused::Mass(row)),
        PushError::WorkRange { row } => Some(Refused::Work(row)),
        PushError::MassSum { row } => Some(Refused::Sum(row)),
        PushError::Memory => Some(Refused::Memory),
    }
}

/// A place, a mass and a work weight, and what a row of these is refused for.
type Case = ([i128; 3], i128, i128, Option<Refused>);

/// The rows of the cases are taken or refused one after another.
fn answers_are(rt: &impl Abort, set: &mut BodySet, cases: &[Case]) {
    for (at, (place, mass, work, want)) in cases.iter().enumerate() {
        let got = refusal(set.push(&row_at(*place, *mass, 5, *work)));
        assert!(rt; got == *want, "row {at}");
    }
}

/// A row that is refused leaves the number of the next one.
const REFUSALS: [Case; 10] = [
    ([0, 0, 0], 1, 0, None),
    ([2_097_152, 0, 0], 1, 0, Some(Refused::Outside(1, Axis::X))),
    (
        [2_097_151, -1, 9_999_999],
        0,
        -1,
        Some(Refused::Outside(1, Axis::Y)),
    ),
    ([0, 0, 2_097_152], 0, -1, Some(Refused::Outside(1, Axis::Z))),
    ([0, 0, 0], 0, -1, Some(Refused::Mass(1))),
    ([0, 0, 0], 4_294_967_296, -1, Some(Refused::Mass(1))),
    (
        [0, 0, 0],
        4_294_967_295,
        4_294_967_296,
        Some(Refused::Work(1)),
    ),
    ([0, 0, 0], 1, -1, Some(Refused::Work(1))),
    ([i128::MAX, 0, 0], 1, 0, Some(Refused::Outside(1, Axis::X))),
    (
        [2_097_151, 2_097_151, 2_097_151],
        4_294_967_295,
        4_294_967_295,
        None,
    ),
];

#[test]
fn refused_rows(rt: HostRuntime) {
    let mut set = BodySet::new(rt.alloc(), cube_at(21, 0));
    answers_are(&rt, &mut set, &REFUSALS);
    assert_eq!(rt; set.len(), 2);
}

/// The lowest corner that a file can give, the highest, and the last place of a cube of 29 bits.
const LOW: i128 = -9_223_372_036_854_775_808;

const HIGH: i128 = 18_446_744_073_709_551_615;

const EDGE: i128 = 536_870_911;

const AT_LOW: [Case; 3] = [
    ([LOW, LOW, LOW + EDGE], 1, 0, None),
    (
        [LOW + EDGE + 1, LOW, LOW],
        1,
        0,
        Some(Refused::Outside(1, Axis::X)),
    ),
    ([HIGH, LOW, LOW], 1, 0, Some(Refused::Outside(1, Axis::X))),
];

const AT_HIGH: [Case; 3] = [
    ([HIGH, HIGH, HIGH + EDGE], 1, 0, None),
    (
        [HIGH - 1, HIGH, HIGH],
        1,
        0,
        Some(Refused::Outside(1, Axis::X)),
    ),
    ([LOW, HIGH, HIGH], 1, 0, Some(Refused::Outside(1, Axis::X))),
];

const AT_LEAST: [Case; 1] = [([i128::MAX, 0, 0], 1, 0, Some(Refused::Outside(0, Axis::X)))];

#[test]
fn far_corners(rt: HostRuntime) {
    for (corner, cases) in [
        (LOW, AT_LOW.as_slice()),
        (HIGH, AT_HIGH.as_slice()),
        (i128::MIN, AT_LEAST.as_slice()),
    ] {
        let mut set = BodySet::new(rt.alloc(), cube_at(29, corner));
        answers_are(&rt, &mut set, cases);
    }
}

/// At one cube bit a unit of the file is 2^28 fine units.
const KEYED: [([i128; 3], i128, i128); 4] = [
    ([11, 10, 10], 900, 3),
    ([10, 10, 11], -17, 0),
    ([11, 10, 10], 5, 7),
    ([10, 10, 10], 2, 1),
];

/// Row, x and key of these, by key.
const ORDERED: [(u32, u32, u64); 4] = [
    (3, 0, 9_223_372_036_854_775_808),
    (1, 0, 10_376_293_541_461_622_784),
    (0, 268_435_456, 13_835_058_055_282_163_712),
    (2, 268_435_456, 13_835_058_055_282_163_712),
];

#[test]
fn key_order(rt: HostRuntime) {
    let mut set = BodySet::new(rt.alloc(), cube_at(1, 10));
    for (place, ident, work) in &KEYED {
        set.push(&row_at(*place, 6, *ident, *work))
            .expect(&rt, "a good row");
    }
    let ordered = set.order(rt.alloc()).expect(&rt, "memory");
    assert_eq!(rt; ordered.bodies().len(), ORDERED.len());
    for (body, want) in ordered.bodies().iter().zip(ORDERED.iter()) {
        assert_eq!(rt; (body.row, body.x, body.key), *want);
        assert_eq!(rt; body.mass, 6);
    }
    assert_eq!(rt; ordered.idents(), [900, -17, 5, 2].as_slice());
    assert_eq!(rt; ordered.weights(), [3, 0, 7, 1].as_slice());
}

#[test]
fn full_set(rt: HostRuntime) {
    let mut set = BodySet::new(rt.alloc(), cube_at(21, 0));
    for at in 0..1_048_576_u32 {
        let x = i128::from(at);
        set.push(&row_at([x, 0, 0], 1, x, 1))
            .expect(&rt, "a good row");
    }
    assert_eq!(rt; set.len(), 1_048_576);
    // it is full before anything else is looked at
    let answer = refusal(set.push(&row_at([-1, 0, 0], 0, 0, -1)));
    assert!(rt; answer == Some(Refused::TooMany));
    let ordered = set.order(rt.alloc()).expect(&rt, "memory");
    assert_eq!(rt; ordered.bodies().len(), 1_048_576);
}

/// Behind 256 bodies of the largest mass there is room for a mass of 256, and then for none.
const HEAVY: [Case; 5] = [
    ([0, 0, 0], 257, 0, Some(Refused::Sum(256))),
    ([0, 0, 0], 4_294_967_296, 0, Some(Refused::Mass(256))),
    ([0, 0, 0], 257, -1, Some(Refused::Work(256))),
    ([0, 0, 0], 256, 0, None),
    ([0, 0, 0], 1, 0, Some(Refused::Sum(257))),
];

#[test]
fn heaviest_set(rt: HostRuntime) {
    let mut set = BodySet::new(rt.alloc(), cube_at(21, 0));
    for _ in 0..256 {
        set.push(&row_at([0, 0, 0], 4_294_967_295, 0, 1))
            .expect(&rt, "a good row");
    }
    answers_are(&rt, &mut set, &HEAVY);
    assert_eq!(rt; set.len(), 257);
}

/// A row with this place and these velocities.
fn moving(place: [i128; 3], vx: Option<i128>, vy: Option<i128>, vz: Option<i128>) -> RawRow {
    let mut row = row_at(place, 1, 0, 1);
    row.vx = vx;
    row.vy = vy;
    row.vz = vz;
    row
}

/// An axis without a column has 0, and a refused row leaves no velocity.
#[test]
fn velocities(rt: HostRuntime) {
    let mut set = BodySet::new(rt.alloc(), cube_at(21, 0));
    set.push(&moving([0, 0, 0], None, Some(5), Some(-7)))
        .expect(&rt, "a good row");
    assert!(rt;
        set.push(&moving([0, 0, -1], Some(1), Some(1), Some(1)))
            .is_err()
    );
    set.push(&moving([0, 0, 0], Some(i128::MIN), None, None))
        .expect(&rt, "a good row");
    assert!(rt; set.velocity(0) == Some([0, 5, -7]));
    assert!(rt; set.velocity(1) == Some([i128::MIN, 0, 0]));
    assert!(rt; set.velocity(2).is_none());
    let ordered = set.order(rt.alloc()).expect(&rt, "memory");
    assert_eq!(rt; ordered.bodies().len(), 2);
}
