//! Tests of near_walk.
use crate::kernel::octant;
use crate::samples::{bodies_of, mass_of};
use hot_model::{Seen, Visit};
use hot_units::body_of;
use near_walk::limits::MAX_RADIUS;
use near_walk::{NearAcc, NearVisit};
use plain_engine::fold_of;
use std::alloc::Global;
use std::process::Abort;

#[test]
fn radii(rt: HostRuntime) {
    for (radius, good) in [(0, true), (MAX_RADIUS, true), (MAX_RADIUS + 1, false)] {
        assert_eq!(rt; NearVisit::new(radius).is_some(), good);
    }
}

/// The visit with a radius.
fn visit_of(rt: &impl Abort, radius: u32) -> NearVisit {
    NearVisit::new(radius).expect(rt, "a radius within the limit")
}

/// An accumulator has these rows, one by one and all at once.
fn rows_are(rt: &impl Abort, acc: NearAcc, want: &[u32]) {
    assert_eq!(rt; acc.len(), want.len());
    for (i, row) in want.iter().enumerate() {
        assert_eq!(rt; acc.row(i), Some(*row));
    }
    assert_eq!(rt; acc.row(want.len()), None);
    assert_eq!(rt; acc.into_rows().as_slice(), want);
}

/// By the reference walk with leaf limit 1 the first of the bodies of these rows (x, y, z and mass)
/// has these neighbours within the radius, and has seen all mass.
fn first_has(rt: &impl Abort, alloc: Global, radius: u32, rows: &[[u32; 4]], want: &[u32]) {
    let bodies = bodies_of(rt, alloc, rows);
    let first = *bodies.get(0).expect(rt, "a body");
    let acc = fold_of(&visit_of(rt, radius), alloc, &bodies, 1, &first).expect(rt, "memory");
    assert_eq!(rt; acc.seen(), mass_of(rows));
    rows_are(rt, acc, want);
}

/// The last coordinate.
const LAST: u32 = 536_870_911;

#[test]
fn neighbours(rt: HostRuntime) {
    // at a distance of 3 coarse units
    let two = [[0, 0, 0, 1], [256, 512, 512, 3]];
    first_has(&rt, rt.alloc(), 768, &two, &[1]);
    first_has(&rt, rt.alloc(), 767, &two, &[]);
    // five at one place
    first_has(&rt, rt.alloc(), 0, &[[7, 7, 7, 2]; 5], &[1, 2, 3, 4]);
    // the whole diagonal of the cube is within the largest radius
    let corners = [[0, 0, 0, 1], [0, LAST, 0, 1], [LAST, LAST, LAST, 1]];
    first_has(&rt, rt.alloc(), MAX_RADIUS, &corners, &[1, 2]);
    first_has(&rt, rt.alloc(), LAST, &corners, &[1]);
    first_has(&rt, rt.alloc(), LAST - 1, &corners, &[]);
}

/// Half the cube's side.
const HALF: u32 = 268_435_456;

/// The place of a body, an octant, the place of its one body, the radius, and whether the octant is
/// opened.
type Opening = ([u32; 3], u32, [u32; 3], u32, bool);

/// Openings by hand: an octant beside is half a side away, whichever way, wherever its body is, and
/// the one across the root of three times the square of that.
const OPENINGS: [Opening; 8] = [
    ([0, 0, 0], 0, [HALF - 1, HALF - 1, HALF - 1], 0, true),
    ([0, 0, 0], 4, [LAST, LAST - HALF, 0], HALF, true),
    ([0, 0, 0], 4, [HALF, 0, 0], HALF - 1, false),
    ([0, LAST, 0], 0, [0, 0, 0], HALF, true),
    ([0, LAST, 0], 0, [0, HALF - 1, 0], HALF - 1, false),
    ([HALF, LAST, 5], 6, [LAST, HALF, 5], 0, true),
    ([0, 0, 0], 7, [LAST, LAST, LAST], 464_943_849, true),
    ([0, 0, 0], 7, [HALF, HALF, HALF], 464_943_848, false),
];

/// The opening is as stated.
fn opening_is(rt: &impl Abort, case: &Opening) {
    let (from, digit, at, radius, opened) = *case;
    let body = body_of(from[0], from[1], from[2], 1, 0).expect(rt, "a place");
    let inside = body_of(at[0], at[1], at[2], 1, 1).expect(rt, "a place");
    let cell = octant(digit % 8, &inside).expect(rt, "a body of the octant");
    assert_eq!(rt; visit_of(rt, radius).opens(&body, &cell), opened);
}

#[test]
fn openings(rt: HostRuntime) {
    for case in &OPENINGS {
        opening_is(&rt, case);
    }
}

#[test]
fn rows_come_in_any_order(rt: HostRuntime) {
    let visit = visit_of(&rt, 2);
    let body = body_of(9, 9, 9, 1, 4).expect(&rt, "a place");
    let mut acc = visit.zero(rt.alloc());
    for row in [7, 0, 4, 9, 0, 4_294_967_295] {
        let other = body_of(9, 9, 11, 1, row).expect(&rt, "a place");
        assert!(rt; acc.seen() < 6 && other.mass == 1);
        visit.near(&mut acc, &body, &other).expect(&rt, "memory");
    }
    rows_are(&rt, acc, &[0, 0, 7, 9, 4_294_967_295]);
}
