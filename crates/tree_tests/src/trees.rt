//! Tests of local_tree.
ghost use Rattle.std.specs.Prelude.{IfSome};
ghost use Rattle.morton_key.specs.Ranges.{IsBodyKey};

use crate::samples::bodies_of;
use hot_model::{Answer, CellRec, RecList};
use local_tree::LocalTree;
use morton_key::is_cell;
use std::alloc::Global;
use std::process::Abort;

/// The first body key, that of the place 0, 0, 0.
const FIRST: u64 = 9_223_372_036_854_775_808;

/// The tree of the bodies at these places with these masses, between these keys.
fn tree_of(
    rt: &impl Abort,
    alloc: Global,
    rows: &[[u32; 4]],
    left: Option<u64>,
    right: Option<u64>,
    leaf: u32,
) -> LocalTree
    requires left { IfSome left IsBodyKey }
    requires right { IfSome right IsBodyKey }
{
    let piece = bodies_of(rt, alloc, rows);
    LocalTree::build(alloc, &piece, left, right, leaf).expect(rt, "memory")
}

/// A record as key, count, mass and the three sums.
type Numbers = (u64, u32, u64, [u128; 3]);

fn numbers(rec: &CellRec) -> Numbers {
    (rec.key, rec.count, rec.mass, [rec.sx, rec.sy, rec.sz])
}

fn records_are(rt: &impl Abort, list: &RecList, want: &[Numbers]) {
    assert_eq!(rt; list.len(), want.len());
    for (rec, w) in list.as_slice().iter().zip(want.iter()) {
        assert_eq!(rt; numbers(rec), *w);
    }
}

fn branches_are(rt: &impl Abort, tree: &LocalTree, want: &[Numbers]) {
    records_are(rt, &tree.branches().expect(rt, "memory"), want);
}

/// These cells have these records.
fn recs_are(rt: &impl Abort, tree: &LocalTree, cells: &[(u64, Option<Numbers>)]) {
    for &(key, want) in cells {
        assert!(rt; is_cell(key));
        assert_eq!(rt; tree.rec(key).as_ref().map(numbers), want, "of {key}");
    }
}

/// The masses of the bodies of a cell are these, in order.
fn masses_are(rt: &impl Abort, tree: &LocalTree, key: u64, want: &[u32]) {
    assert!(rt; is_cell(key));
    for i in 0..4u32 {
        assert_eq!(rt;
            tree.body(key, i).map(|b| b.mass),
            want.get(i as usize).copied(),
            "body {i} of {key}"
        );
    }
}

/// Whether these cells are home.
fn homes_are(rt: &impl Abort, tree: &LocalTree, cells: &[(u64, bool)]) {
    for &(key, want) in cells {
        assert!(rt; is_cell(key));
        assert_eq!(rt; tree.is_home(key), want, "home {key}");
    }
}

/// Whether these cells are between the neighbours.
fn betweens_are(rt: &impl Abort, tree: &LocalTree, cells: &[(u64, bool)]) {
    for &(key, want) in cells {
        assert!(rt; is_cell(key));
        assert_eq!(rt; tree.is_between(key), want, "between {key}");
    }
}

/// The answer for an own cell is the bodies of these masses.
fn answer_is_bodies(rt: &impl Abort, tree: &LocalTree, key: u64, masses: &[u32]) {
    assert!(rt; is_cell(key));
    assert!(rt; tree.is_home(key));
    let Answer::Bodies(list) = tree.answer(key).expect(rt, "memory") else {
        panic!(rt; "children of {key}");
    };
    assert_eq!(rt; list.len(), masses.len());
    for (b, mass) in list.as_slice().iter().zip(masses.iter()) {
        assert_eq!(rt; b.mass, *mass);
    }
}

/// The answer for an own cell is these records of its children.
fn answer_is_children(rt: &impl Abort, tree: &LocalTree, key: u64, children: &[Numbers]) {
    assert!(rt; is_cell(key));
    assert!(rt; tree.is_home(key));
    let Answer::Children(list) = tree.answer(key).expect(rt, "memory") else {
        panic!(rt; "bodies of {key}");
    };
    records_are(rt, &list, children);
}

/// Two bodies near each other.
const NEAR: [[u32; 4]; 2] = [[0, 0, 0, 1], [1024, 0, 0, 3]];

#[test]
fn two_bodies_alone(rt: HostRuntime) {
    let tree = tree_of(&rt, rt.alloc(), &NEAR, None, None, 8);
    let both = |key| (key, 2, 4, [3072, 0, 0]);
    recs_are(
        &rt,
        &tree,
        &[(1, Some(both(1))), (8, Some(both(8))), (15, None)],
    );
    masses_are(&rt, &tree, 1, &[1, 3]);
    masses_are(&rt, &tree, FIRST, &[1]);
    masses_are(&rt, &tree, 15, &[]);
    homes_are(&rt, &tree, &[(1, true), (15, false)]);
    betweens_are(&rt, &tree, &[(1, true)]);
    answer_is_bodies(&rt, &tree, 1, &[1, 3]);
    branches_are(&rt, &tree, &[both(1)]);
}

#[test]
fn two_bodies_in_two_leaves(rt: HostRuntime) {
    let fine = tree_of(&rt, rt.alloc(), &NEAR, None, None, 1);
    let both = (8, 2, 4, [3072, 0, 0]);
    recs_are(&rt, &fine, &[(8, Some(both))]);
    answer_is_children(&rt, &fine, 1, &[both]);
    let half = 268_435_456;
    let far = [[0, 0, 0, 1], [half, 0, 0, 3]];
    let apart = tree_of(&rt, rt.alloc(), &far, None, None, 1);
    let children = [(8, 1, 1, [0, 0, 0]), (12, 1, 3, [805_306_368, 0, 0])];
    answer_is_children(&rt, &apart, 1, &children);
    recs_are(&rt, &apart, &[(1, Some((1, 2, 4, [805_306_368, 0, 0])))]);
}

#[test]
fn a_neighbour_in_the_root(rt: HostRuntime) {
    let beside = tree_of(&rt, rt.alloc(), &NEAR, None, Some(FIRST + 257), 8);
    homes_are(&rt, &beside, &[(1, false)]);
    betweens_are(&rt, &beside, &[(1, false)]);
}

/// The digits behind the 19 zeros are 01 and 16.
const UNDER: [[u32; 4]; 2] = [[0, 0, 256, 2], [256, 256, 512, 5]];

/// The record of the first of these.
const UNDER_FIRST: Numbers = (FIRST + 1, 1, 2, [0, 0, 512]);

#[test]
fn neighbours_under_the_parents(rt: HostRuntime) {
    // the digits of the neighbours are 00 and 17
    let tree = tree_of(&rt, rt.alloc(), &UNDER, Some(FIRST), Some(FIRST + 15), 8);
    let last = (FIRST + 14, 1, 5, [1280, 1280, 2560]);
    branches_are(&rt, &tree, &[UNDER_FIRST, last]);
    let homes = [
        (FIRST / 8, false),
        (FIRST / 8 + 1, false),
        (FIRST + 1, true),
    ];
    homes_are(&rt, &tree, &homes);
    let betweens = [
        (FIRST, false),
        (FIRST + 1, true),
        (FIRST + 7, true),
        (FIRST + 14, true),
        (FIRST + 15, false),
        (FIRST / 8, false),
        (15, false),
    ];
    betweens_are(&rt, &tree, &betweens);
    answer_is_bodies(&rt, &tree, FIRST + 14, &[5]);
}

#[test]
fn a_neighbour_on_the_left(rt: HostRuntime) {
    let open = tree_of(&rt, rt.alloc(), &UNDER, Some(FIRST), None, 1);
    let last = (FIRST / 8 + 1, 1, 5, [1280, 1280, 2560]);
    branches_are(&rt, &open, &[last, UNDER_FIRST]);
}

#[test]
fn bodies_at_one_place(rt: HostRuntime) {
    let rows = [[5, 5, 5, 1], [5, 5, 5, 2], [5, 5, 5, 3]];
    let tree = tree_of(&rt, rt.alloc(), &rows, None, None, 1);
    let all = |key| (key, 3, 6, [30, 30, 30]);
    answer_is_bodies(&rt, &tree, FIRST, &[1, 2, 3]);
    answer_is_children(&rt, &tree, FIRST / 8, &[all(FIRST)]);
    recs_are(&rt, &tree, &[(1, Some(all(1)))]);
}

#[test]
fn no_bodies(rt: HostRuntime) {
    let none = tree_of(&rt, rt.alloc(), &[], None, None, 1);
    recs_are(&rt, &none, &[(1, None)]);
    homes_are(&rt, &none, &[(1, false)]);
    branches_are(&rt, &none, &[]);
}
