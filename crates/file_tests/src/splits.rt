// How bodies are split over ranks: ranges, weights and neighbouring keys.
use crate::samples::{Row, set_of};
use key_order::Ordered;
use std::alloc::Global;
use std::process::Abort;
use std::test::Fail;
use work_split::split;

/// The split of a set has these ranges, weights and neighbouring keys, rank by rank.
fn pieces_are(
    rt: &impl Abort,
    alloc: Global,
    set: &Ordered,
    want: &[((usize, usize), u64, Option<u64>, Option<u64>)],
) {
    assert!(rt; !want.is_empty() && want.len() <= 64);
    let ranks = want.len() as u32;
    let pieces = split(alloc, set, ranks).expect(rt, "memory");
    for q in 0..ranks {
        let (range, weight, left, right) = want[q as usize];
        assert!(rt; pieces.range(q) == range);
        assert!(rt; pieces.weight(q) == weight);
        assert!(rt; pieces.neighbours(set, q) == (left, right));
    }
}

/// The key of the place 0, 0, 0.
const FIRST: u64 = 9_223_372_036_854_775_808;

#[test]
fn four_without_work(rt: HostRuntime) {
    let rows = [
        ([0, 0, 0], 1, 0),
        ([1, 0, 0], 1, 0),
        ([2, 0, 0], 1, 0),
        ([3, 0, 0], 1, 0),
    ];
    let set = set_of(&rt, rt.alloc(), &rows);
    // the keys end in the digits 00, 04, 40 and 44
    let want = [
        ((0, 2), 2, None, Some(FIRST + 32)),
        ((2, 4), 2, Some(FIRST + 4), None),
    ];
    pieces_are(&rt, rt.alloc(), &set, &want);
    pieces_are(&rt, rt.alloc(), &set, &[((0, 4), 4, None, None)]);
}

#[test]
fn two_far_apart(rt: HostRuntime) {
    let rows = [([0, 0, 0], 1, 1), ([1_048_576, 0, 0], 2, 1)];
    let set = set_of(&rt, rt.alloc(), &rows);
    // the second is in the child 4 of the root
    let far = 13_835_058_055_282_163_712;
    let want = [((0, 1), 1, None, Some(far)), ((1, 2), 1, Some(FIRST), None)];
    pieces_are(&rt, rt.alloc(), &set, &want);
}

#[test]
fn one_point_stays_together(rt: HostRuntime) {
    let rows = [([5, 5, 5], 1, 0), ([5, 5, 5], 1, 0), ([5, 5, 5], 1, 5)];
    let set = set_of(&rt, rt.alloc(), &rows);
    // the digits of 5 5 5 end in 707
    let key = FIRST + 455;
    let want = [((0, 3), 5, None, None), ((3, 3), 0, Some(key), None)];
    pieces_are(&rt, rt.alloc(), &set, &want);
}

#[test]
fn unlike_weights(rt: HostRuntime) {
    let rows = [
        ([3, 0, 0], 1, 1),
        ([0, 0, 0], 1, 6),
        ([2, 0, 0], 1, 2),
        ([1, 0, 0], 1, 0),
    ];
    let set = set_of(&rt, rt.alloc(), &rows);
    // in key order the weights are 6, 0, 2 and 1, so those below are 0, 6, 6 and 8 of 9
    let want = [
        ((0, 1), 6, None, Some(FIRST + 4)),
        ((1, 1), 0, Some(FIRST), Some(FIRST + 4)),
        ((1, 4), 3, Some(FIRST), None),
    ];
    pieces_are(&rt, rt.alloc(), &set, &want);
}

#[test]
fn more_ranks_than_bodies(rt: HostRuntime) -> Result<(), Fail> {
    let rows = [([0, 0, 0], 1, 0), ([1, 0, 0], 1, 0), ([2, 0, 0], 1, 0)];
    let set = set_of(&rt, rt.alloc(), &rows);
    let pieces = split(rt.alloc(), &set, 64)?;
    // the ranks are 0, floor(64 / 3) and floor(128 / 3)
    for (q, range, weight) in [
        (0, (0, 1), 1),
        (1, (1, 1), 0),
        (20, (1, 1), 0),
        (21, (1, 2), 1),
        (42, (2, 3), 1),
        (43, (3, 3), 0),
        (63, (3, 3), 0),
    ] {
        assert!(rt; pieces.range(q) == range);
        assert!(rt; pieces.weight(q) == weight);
    }
    Ok(())
}

#[test]
fn no_bodies(rt: HostRuntime) {
    let set = set_of(&rt, rt.alloc(), &[]);
    pieces_are(
        &rt,
        rt.alloc(),
        &set,
        &[((0, 0), 0, None, None), ((0, 0), 0, None, None)],
    );
}
