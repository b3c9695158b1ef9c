//! Tests of plain_engine.
use crate::samples::bodies_of;
use fixed_kernel::{Eps, ForceVisit, Ratio};
use hot_model::ForceEngine;
use plain_engine::{PlainEngine, fold_of};
use std::alloc::Global;
use std::process::Abort;

/// The two numbers of the opening ratio, the softening, and the leaf limit.
type Settings = [u32; 4];

/// The engine of these settings gives the bodies of these rows (x, y, z and mass) these forces.
fn forces_are(
    rt: &impl Abort,
    alloc: Global,
    settings: Settings,
    rows: &[[u32; 4]],
    want: &[[i128; 3]],
) {
    let [num, den, eps, leaf] = settings;
    let mut engine = PlainEngine::new(num, den, eps, leaf).expect(rt, "numbers in range");
    let bodies = bodies_of(rt, alloc, rows);
    let got = engine.forces(alloc, &mut (), &bodies).expect(rt, "memory");
    assert_eq!(rt; got.len(), want.len());
    for (a, w) in got.iter().zip(want.iter()) {
        assert_eq!(rt; [a.ax, a.ay, a.az], *w);
    }
}

#[test]
fn forces_of_two(rt: HostRuntime) {
    // a unit of the file is 256 fine units at 21 cube bits
    let along = [[0, 0, 0, 1], [1024, 0, 0, 3]];
    let want = [[3_145_725, 0, 0], [-1_048_575, 0, 0]];
    forces_are(&rt, rt.alloc(), [0, 1, 1, 8], &along, &want);
    let corner = [[0, 0, 0, 1], [256, 512, 512, 1]];
    let want = [
        [621_377, 1_242_754, 1_242_754],
        [-621_377, -1_242_754, -1_242_754],
    ];
    forces_are(&rt, rt.alloc(), [7, 10, 1, 8], &corner, &want);
    forces_are(&rt, rt.alloc(), [7, 10, 256, 8], &[], &[]);
}

/// Half the cube's side.
const FAR: u32 = 268_435_456;

/// The pull of one of two far bodies on the other.
const NEAR: i128 = 70_367_402_021_887;

#[test]
fn forces_of_three(rt: HostRuntime) {
    let three = [
        [0, 0, 0, 1],
        [FAR, 0, 0, 4_194_304],
        [FAR + 256, 0, 0, 4_194_304],
    ];
    let whole = [[127, 0, 0], [NEAR, 0, 0], [-NEAR, 0, 0]];
    forces_are(&rt, rt.alloc(), [1, 1, 1, 1], &three, &whole);
    let single = [[126, 0, 0], [NEAR, 0, 0], [-NEAR, 0, 0]];
    forces_are(&rt, rt.alloc(), [0, 1, 1, 1], &three, &single);
    // both far bodies at one place: their cell is as wide as it is far, and is opened
    let pair = [[0, 0, 0, 1], [FAR, 0, 0, 4_194_304], [FAR, 0, 0, 4_194_304]];
    let want = [[127, 0, 0], [0, 0, 0], [0, 0, 0]];
    forces_are(&rt, rt.alloc(), [1, 1, 1, 1], &pair, &want);
}

/// The visit of first or second order, with ratio 1 and softening 1.
fn visit_of(rt: &impl Abort, second: bool) -> ForceVisit {
    let ratio = Ratio::new(1, 1).expect(rt, "a ratio");
    let eps = Eps::new(1).expect(rt, "a softening");
    if second {
        ForceVisit::with_second(ratio, eps).expect(rt, "a ratio of at most 1")
    } else {
        ForceVisit::new(ratio, eps)
    }
}

/// By the reference walk with leaf limit 1 the bodies of these rows have these forces along x.
fn along_x_are(rt: &impl Abort, alloc: Global, second: bool, rows: &[[u32; 4]], want: &[i128]) {
    let visit = visit_of(rt, second);
    let bodies = bodies_of(rt, alloc, rows);
    assert_eq!(rt; bodies.len(), want.len());
    for (b, w) in bodies.iter().zip(want.iter()) {
        let acc = fold_of(&visit, alloc, &bodies, 1, b).expect(rt, "memory");
        assert_eq!(rt; acc.ax, *w);
    }
}

#[test]
fn worked_second_order(rt: HostRuntime) {
    let rows = [[0, 0, 0, 1], [512, 0, 0, 4_194_304], [768, 0, 0, 4_194_304]];
    let near = [70_367_397_827_599, -70_367_403_886_018];
    for (second, first) in [(true, 25_220_089_743_732), (false, 22_517_943_161_405)] {
        along_x_are(&rt, rt.alloc(), second, &rows, &[first, near[0], near[1]]);
    }
}
