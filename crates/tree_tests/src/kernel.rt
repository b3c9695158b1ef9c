//! Tests of fixed_kernel.
ghost use Rattle.std.specs.Prelude.{◌<◌, IfSome};

use fixed_kernel::{Eps, ForceVisit, Ratio, accepts, centre, pull, root};
use hot_model::{CellRec, Seen, Visit};
use hot_units::{Acc3, Body, body_of, covers};
use moments::of_body;
use std::process::Abort;

/// Numbers with their roots.
const ROOTS: [(u128, u128); 14] = [
    (0, 0),
    (1, 1),
    (3, 1),
    (4, 2),
    (24, 4),
    (25, 5),
    (26, 5),
    (5070602400912917605986812821503, 2251799813685247),
    (5070602400912917605986812821504, 2251799813685248),
    (81129638414606699710187514626048, 9007199254740992),
    (81129638414606699710187514626049, 9007199254740993),
    (
        340282366920938463426481119284349108224,
        18446744073709551614,
    ),
    (
        340282366920938463426481119284349108225,
        18446744073709551615,
    ),
    (u128::MAX, 18446744073709551615),
];

#[test]
fn roots(rt: HostRuntime) {
    for &(n, expected) in &ROOTS {
        assert_eq!(rt; root(n), expected);
    }
}

/// The two numbers of ratios, with whether they are within the limits.
const RATIOS: [(u32, u32, bool); 5] = [
    (0, 1, true),
    (1024, 1024, true),
    (1025, 1, false),
    (1, 0, false),
    (1, 1025, false),
];

/// Softenings, with whether they are within the limits.
const SOFTENINGS: [(u32, bool); 4] = [(0, false), (1, true), (268435456, true), (268435457, false)];

#[test]
fn limits(rt: HostRuntime) {
    for &(num, den, good) in &RATIOS {
        assert_eq!(rt; Ratio::new(num, den).is_some(), good);
    }
    for &(n, good) in &SOFTENINGS {
        assert_eq!(rt; Eps::new(n).is_some(), good);
    }
}

/// The place of a body.
type Place = [u32; 3];

/// The body of a place with a mass, which is its row too.
fn body_at(rt: &impl Abort, at: Place, mass: u32) -> Body {
    body_of(at[0], at[1], at[2], mass, mass).expect(rt, "a place")
}

/// The place of a body, the place of a mass, the mass, the softening, and the pull on the body.
type Pull = (Place, Place, u64, u32, [i128; 3]);

/// The pull is as stated.
fn pull_is(rt: &impl Abort, case: &Pull) {
    let (on, at, mass, eps, expected) = *case;
    let on = body_at(rt, on, 1);
    let at = body_at(rt, at, 1);
    let eps = Eps::new(eps).expect(rt, "a softening");
    let mass = mass.min(1099511627776);
    let got = pull([on.x, on.y, on.z], [at.x, at.y, at.z], mass, eps);
    assert_eq!(rt; got, expected);
}

/// Worked pulls.
const PULLS: [Pull; 9] = [
    ([0, 0, 0], [1024, 0, 0], 3, 1, [3145725, 0, 0]),
    ([1024, 0, 0], [0, 0, 0], 1, 1, [-1048575, 0, 0]),
    ([0, 0, 0], [256, 512, 512], 1, 1, [621377, 1242754, 1242754]),
    (
        [256, 512, 512],
        [0, 0, 0],
        1,
        1,
        [-621377, -1242754, -1242754],
    ),
    ([5, 6, 7], [5, 6, 7], 1099511627776, 1, [0, 0, 0]),
    ([5, 6, 7], [6, 6, 7], 0, 1, [0, 0, 0]),
    (
        [0, 0, 0],
        [536870911, 536870911, 536870911],
        1,
        1,
        [0, 0, 0],
    ),
    (
        [0, 0, 0],
        [536870911, 536870911, 536870911],
        1099511627776,
        1,
        [807194, 807194, 807194],
    ),
    (
        [7, 7, 7],
        [8, 6, 7],
        1099511627776,
        1,
        [232739244084485857285039, -232739244084485857285039, 0],
    ),
];

#[test]
fn pulls(rt: HostRuntime) {
    for case in &PULLS {
        pull_is(&rt, case);
    }
}

/// The largest coordinate.
const FAR: u32 = 536870911;

/// Pulls at the limits. The values are those of the formula in whole numbers of any size, divided
/// out.
const EXTREMES: [Pull; 10] = [
    // too large for the bounds, and at their edge
    (
        [0, 0, 0],
        [1, 0, 0],
        1099511627776,
        1,
        [427465483178653409840857, 0, 0],
    ),
    (
        [0, 0, 0],
        [32767, 1, 0],
        1099511627776,
        1,
        [1125968627367807, 34362884223, 0],
    ),
    (
        [0, 0, 0],
        [65536, 65536, 1],
        1099511627776,
        1,
        [99516433014619, 99516433014619, 1518500259],
    ),
    // the quotients are whole
    (
        [0, 0, 0],
        [1, 1, 1],
        1099511627776,
        1,
        [
            151115727451828646838272,
            151115727451828646838272,
            151115727451828646838272,
        ],
    ),
    (
        [0, 0, 0],
        [1024, 1024, 1024],
        1,
        1024,
        [131072, 131072, 131072],
    ),
    // the greatest distance, mass and softening
    (
        [FAR, FAR, FAR],
        [0, 0, 536870910],
        1099511627776,
        268435456,
        [-1242756, -1242756, 0],
    ),
    (
        [0, FAR, 3],
        [FAR, 0, 3],
        1099511627775,
        7,
        [1482910, -1482910, 0],
    ),
    ([5, 5, 5], [6, 5, 5], 1099511627776, 268435456, [0, 0, 0]),
    // the largest mass that is too small to pull, and one more
    ([0, 0, 0], [FAR, 0, 0], 262142, 1, [0, 0, 0]),
    ([0, 0, 0], [FAR, 0, 0], 262143, 1, [0, 0, 0]),
];

#[test]
fn extreme_pulls(rt: HostRuntime) {
    for case in &EXTREMES {
        pull_is(&rt, case);
    }
}

/// The record of one octant with a single body, if the body lies there.
pub fn octant(digit: u32, at: &Body) -> Option<CellRec>
    requires { digit < 8 }
    ensures { IfSome result (λ r. 0 < r.count) }
{
    let cell = 8 + u64::from(digit);
    if covers(cell, at.key) {
        Some(of_body(cell, at))
    } else {
        None
    }
}

/// The place of a body, an octant, the place of its one body, the ratio, and whether the octant is
/// accepted.
type Opening = (Place, u32, Place, [u32; 2], bool);

/// Worked openings.
const OPENINGS: [Opening; 9] = [
    ([0, 0, 0], 4, [268435456, 0, 0], [1, 1], false),
    ([0, 0, 0], 4, [268435457, 0, 0], [1, 1], true),
    ([0, 0, 0], 4, [536870911, 0, 0], [1, 1], true),
    ([0, 0, 0], 4, [536870911, 0, 0], [0, 1], false),
    ([0, 0, 0], 0, [268435455, 0, 0], [1, 1], false),
    ([0, 0, 0], 4, [536870911, 0, 0], [1, 2], false),
    (
        [0, 0, 0],
        7,
        [536870911, 536870911, 536870911],
        [1, 2],
        true,
    ),
    ([268173312, 0, 0], 4, [268435456, 0, 0], [1024, 1], false),
    ([268173312, 0, 0], 4, [268435457, 0, 0], [1024, 1], true),
];

/// The opening is as stated, and the centre of the octant is its body.
fn opening_is(rt: &impl Abort, case: &Opening) {
    let (from, digit, at, ratio, accepted) = *case;
    let body = body_at(rt, from, 1);
    let inside = body_at(rt, at, 3);
    let ratio = Ratio::new(ratio[0], ratio[1]).expect(rt, "a ratio");
    let cell = octant(digit % 8, &inside).expect(rt, "a body of the octant");
    assert_eq!(rt; centre(&cell), at);
    assert_eq!(rt; accepts(&body, &cell, ratio), accepted);
}

#[test]
fn openings(rt: HostRuntime) {
    for case in &OPENINGS {
        opening_is(&rt, case);
    }
}

/// The visit of gravity with ratio 1 and softening 1.
fn gravity(rt: &impl Abort) -> ForceVisit {
    let ratio = Ratio::new(1, 1).expect(rt, "a ratio");
    ForceVisit::new(ratio, Eps::new(1).expect(rt, "a softening"))
}

/// An accumulator has seen the mass 3, and has the pull of a mass of 3 over four units.
fn is_pulled(rt: &impl Abort, acc: &Acc3) {
    assert_eq!(rt; acc.seen(), 3);
    assert_eq!(rt; [acc.ax, acc.ay, acc.az], [3145725, 0, 0]);
}

#[test]
fn visit_adds_bodies(rt: HostRuntime) {
    let visit = gravity(&rt);
    let body = body_at(&rt, [268435456, 0, 0], 1);
    let other = body_at(&rt, [268436480, 0, 0], 3);
    let mut near = visit.zero(rt.alloc());
    visit.near(&mut near, &body, &other).expect(&rt, "memory");
    is_pulled(&rt, &near);
}

#[test]
fn visit_adds_cells(rt: HostRuntime) {
    let visit = gravity(&rt);
    let body = body_at(&rt, [268435456, 0, 0], 1);
    let other = body_at(&rt, [268436480, 0, 0], 3);
    let cell = octant(4, &other).expect(&rt, "a body of the octant");
    assert!(rt; visit.opens(&body, &cell));
    let mut far = visit.zero(rt.alloc());
    visit.far(&mut far, &body, &cell).expect(&rt, "memory");
    is_pulled(&rt, &far);
}
