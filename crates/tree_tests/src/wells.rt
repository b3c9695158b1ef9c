//! Tests of well_walk.
ghost use Rattle.std.specs.Prelude.{IsTrue};
ghost use Rattle.hot_units.specs.Values.{vector_at};
ghost use Rattle.hot_model.specs.Second.{IsSmall};
ghost use Rattle.well_walk.specs.Limits.{max_velocity};

use crate::kernel::octant;
use crate::samples::{bodies_of, mass_of};
use fixed_kernel::{Eps, Ratio};
use hot_model::{Seen, Visit};
use hot_units::body_of;
use hot_units::limits::MAX_BODY_MASS;
use plain_engine::fold_of;
use std::alloc::Global;
use std::process::Abort;
use well_walk::limits::MAX_VELOCITY;
use well_walk::{Sums, WellVisit, depth};

/// The place of a body, the place of a mass, the mass, the softening, and how deep the body lies.
type Depth = ([u32; 3], [u32; 3], u64, u32, u128);

/// The last coordinate.
const LAST: u32 = 536_870_911;

/// The most mass.
const ALL: u64 = 1_099_511_627_776;

/// Worked depths. The values are those of the formula in whole numbers of any size, divided out.
const DEPTHS: [Depth; 11] = [
    ([0, 0, 0], [1024, 0, 0], 3, 1, 3_221_225_472),
    ([1024, 0, 0], [0, 0, 0], 1, 1, 1_073_741_824),
    // at the place itself: 2^40 times the mass, and a third of that where softened by 3
    ([5, 6, 7], [5, 6, 7], ALL, 1, 1 << 80),
    ([5, 5, 5], [5, 5, 5], 3, 3, 1 << 40),
    ([5, 6, 7], [6, 6, 7], 0, 1, 0),
    // rounded down
    ([0, 0, 0], [1, 0, 0], 1, 1, 777_555_184_283),
    ([0, 0, 0], [256, 512, 512], 1, 1, 1_431_655_765),
    (
        [7, 7, 7],
        [8, 6, 7],
        ALL,
        1,
        698_217_732_253_457_571_855_118,
    ),
    // the greatest distance, mass and softening
    ([0, 0, 0], [LAST, LAST, LAST], 1, 1, 1_182),
    (
        [LAST, LAST, LAST],
        [0, 0, LAST - 1],
        ALL,
        268_435_456,
        1_501_199_878_276_892,
    ),
    (
        [0, LAST, 3],
        [LAST, 0, 3],
        ALL - 1,
        7,
        1_592_262_921_097_278,
    ),
];

/// The depth is as stated.
fn depth_is(rt: &impl Abort, case: &Depth) {
    let (on, at, mass, eps, want) = *case;
    let on = body_of(on[0], on[1], on[2], 1, 0).expect(rt, "a place");
    let at = body_of(at[0], at[1], at[2], 1, 1).expect(rt, "a place");
    let eps = Eps::new(eps).expect(rt, "a softening");
    let got = depth([on.x, on.y, on.z], [at.x, at.y, at.z], mass.min(ALL), eps);
    assert_eq!(rt; got, want);
}

#[test]
fn depths(rt: HostRuntime) {
    for case in &DEPTHS {
        depth_is(&rt, case);
    }
}

/// The visit with a ratio and softening 1.
fn visit_of(rt: &impl Abort, num: u32) -> WellVisit {
    let ratio = Ratio::new(num, 1).expect(rt, "a ratio");
    WellVisit::new(ratio, Eps::new(1).expect(rt, "a softening"))
}

/// By the reference walk with this ratio and leaf limit 1 the bodies of these rows (x, y, z and
/// mass) lie so deep, and each has seen all mass.
fn wells_are(rt: &impl Abort, alloc: Global, num: u32, rows: &[[u32; 4]], want: &[u128]) {
    let bodies = bodies_of(rt, alloc, rows);
    assert_eq!(rt; bodies.len(), want.len());
    for (b, w) in bodies.iter().zip(want.iter()) {
        let acc = fold_of(&visit_of(rt, num), alloc, &bodies, 1, b).expect(rt, "memory");
        assert_eq!(rt; acc.seen(), mass_of(rows));
        assert_eq!(rt; acc.well, *w);
    }
}

/// Half the cube's side.
const HALF: u32 = 268_435_456;

#[test]
fn wells(rt: HostRuntime) {
    let two = [[0, 0, 0, 1], [1024, 0, 0, 3]];
    wells_are(&rt, rt.alloc(), 0, &two, &[3_221_225_472, 1_073_741_824]);
    wells_are(&rt, rt.alloc(), 0, &[[7, 7, 7, 9]], &[0]);
    // at one place each lies in the field of the others
    wells_are(&rt, rt.alloc(), 1, &[[7, 7, 7, 2]; 5], &[8 << 40; 5]);
}

#[test]
fn a_cell_acts_at_its_centre(rt: HostRuntime) {
    // the cell of both far bodies has its centre in the middle between them
    let three = [[0, 0, 0, 1], [HALF, 0, 0, 1], [HALF + HALF / 2, 0, 0, 1]];
    wells_are(&rt, rt.alloc(), 1, &three, &[6553, 12_288, 10_922]);
    wells_are(&rt, rt.alloc(), 0, &three, &[6826, 12_288, 10_922]);
}

#[test]
fn far_adds_a_cell(rt: HostRuntime) {
    let body = body_of(0, 0, 0, 1, 0).expect(&rt, "a place");
    let inside = body_of(HALF, 0, 0, 3, 0).expect(&rt, "a place");
    let cell = octant(4, &inside).expect(&rt, "a body of the octant");
    let visit = visit_of(&rt, 1);
    assert!(rt; visit.opens(&body, &cell));
    let mut acc = visit.zero(rt.alloc());
    // its bodies are not asked for their rows
    visit.far(&mut acc, &body, &cell).expect(&rt, "memory");
    assert!(rt; acc.seen() == 3 && inside.mass == 3);
    visit.near(&mut acc, &body, &inside).expect(&rt, "memory");
    assert_eq!(rt; acc.seen(), 6);
    assert_eq!(rt; acc.well, 12_288);
}

/// The mass of a body, how deep it lies, and its velocity.
type Share = (u32, u128, [i128; 3]);

/// Whether each component of a velocity is within the limit.
fn is_slow(v: [i128; 3]) -> bool
    ensures slow { IsTrue result → IsSmall max_velocity (vector_at v) }
{
    let [x, y, z] = v;
    x.unsigned_abs() <= MAX_VELOCITY
        && y.unsigned_abs() <= MAX_VELOCITY
        && z.unsigned_abs() <= MAX_VELOCITY
}

/// The deepest that a body may lie.
const DEEPEST: u128 = 1 << 80;

/// The largest component of a velocity.
const FAST: i128 = 4_398_046_511_104;

/// Two bodies, and their sums of mass times depth and of mass times the square of the speed.
const SUMS: [(Share, Share, u128, u128); 4] = [
    (
        (1, 3_221_225_472, [0; 3]),
        (3, 1_073_741_824, [0; 3]),
        6_442_450_944,
        0,
    ),
    ((2, 0, [-3, 0, 0]), (5, 1, [1, -2, 2]), 5, 63),
    ((1, 0, [FAST, 0, 0]), (1, 7, [0, 0, -FAST]), 7, 1 << 85),
    (
        (4_294_967_295, DEEPEST, [FAST; 3]),
        (1, DEEPEST, [-FAST; 3]),
        1 << 112,
        3 << 116,
    ),
];

/// The sums are as stated.
fn sums_are(rt: &impl Abort, case: &(Share, Share, u128, u128)) {
    let (first, second, wells, speeds) = *case;
    assert!(rt; first.0 <= MAX_BODY_MASS && second.0 <= MAX_BODY_MASS);
    assert!(rt; first.1 <= DEEPEST && is_slow(first.2));
    assert!(rt; second.1 <= DEEPEST && is_slow(second.2));
    let mut sums = Sums::new();
    sums.add(first.0, first.1, first.2);
    sums.add(second.0, second.1, second.2);
    assert_eq!(rt; sums.well(), wells);
    assert_eq!(rt; sums.speed(), speeds);
}

#[test]
fn sums(rt: HostRuntime) {
    for case in &SUMS {
        sums_are(&rt, case);
    }
}
