//! Tests of branch_merge.
use crate::top_samples::{Cell, list_of, top_of};
use branch_merge::{Top, TopCell};
use hot_model::{CellRec, RecList};
use morton_key::is_cell;
use std::alloc::Global;
use std::process::Abort;

/// The first body key, that of the place 0, 0, 0.
const FIRST: u64 = 9_223_372_036_854_775_808;

/// The unit of places in octants: a quarter of the cube's side.
const QUARTER: u32 = 1 << 27;

/// The side of a cell of the last level.
const LAST: u32 = 256;

/// A record in such units: key, count, mass, the sums for x, y, z, and the products for xx, yy, zz,
/// xy, xz, yz.
type Numbers = (u64, u32, u64, [u32; 3], [u32; 6]);

/// A small number of units.
fn times(n: u32, unit: u32) -> u128 {
    u128::from(n) * u128::from(unit)
}

/// A small number of squared units.
fn squares(n: u32, unit: u32) -> u128 {
    u128::from(n) * u128::from(u64::from(unit) * u64::from(unit))
}

fn sums_are(rt: &impl Abort, rec: &CellRec, unit: u32, want: [u32; 3]) {
    let [x, y, z] = want;
    let sums = [times(x, unit), times(y, unit), times(z, unit)];
    assert_eq!(rt; [rec.sx, rec.sy, rec.sz], sums);
}

fn products_are(rt: &impl Abort, rec: &CellRec, unit: u32, want: [u32; 6]) {
    let got = [rec.sxx, rec.syy, rec.szz, rec.sxy, rec.sxz, rec.syz];
    for (p, n) in got.iter().zip(want.iter()) {
        assert_eq!(rt; *p, squares(*n, unit));
    }
}

fn record_is(rt: &impl Abort, rec: &CellRec, unit: u32, want: Numbers) {
    let (key, count, mass, sums, products) = want;
    assert_eq!(rt; (rec.key, rec.count, rec.mass), (key, count, mass));
    sums_are(rt, rec, unit, sums);
    products_are(rt, rec, unit, products);
}

/// The records of those of these cells that are of a rank.
fn list_of_rank(rt: &impl Abort, alloc: Global, rank: u32, rows: &[(u32, Cell<'_>)]) -> RecList {
    let mut own: Vec<Cell<'_>> = Vec::new(alloc);
    for (q, row) in rows {
        if *q == rank {
            own.push(*row).expect(rt, "memory");
        }
    }
    let list = list_of(alloc, &own).expect(rt, "memory");
    assert_eq!(rt; list.len(), own.len());
    list
}

/// The top of the lists of so many ranks with the records of these cells, each with its rank.
fn merged(rt: &impl Abort, alloc: Global, ranks: u32, rows: &[(u32, Cell<'_>)]) -> Top {
    let mut lists: Vec<RecList> = Vec::new(alloc);
    for rank in 0..ranks {
        let list = list_of_rank(rt, alloc, rank, rows);
        assert!(rt; lists.push(list).is_ok());
    }
    let top = top_of(alloc, &lists).expect(rt, "memory");
    top.expect(rt, "lists that can be merged")
}

/// A top cell: the numbers of its record, and its children.
type Above<'a> = (Numbers, &'a [u64]);

fn cell_is(rt: &impl Abort, cell: Option<&TopCell>, unit: u32, want: Option<Above<'_>>) {
    match (cell, want) {
        (Some(cell), Some((rec, children))) => {
            record_is(rt, &cell.rec, unit, rec);
            assert_eq!(rt; cell.children.as_slice(), children);
        }
        (None, None) => {}
        _ => assert!(rt; false),
    }
}

/// The top cells at these places, and those of these keys.
fn cells_are(
    rt: &impl Abort,
    top: &Top,
    unit: u32,
    places: &[(usize, Option<Above<'_>>)],
    keys: &[(u64, Option<Above<'_>>)],
) {
    for &(i, want) in places {
        cell_is(rt, top.at(i), unit, want);
    }
    for &(key, want) in keys {
        cell_is(rt, top.get(key), unit, want);
    }
}

/// A key with the rank of its owner, if it has one, and the numbers of its listed record, if it is
/// listed.
type Asked = (u64, Option<u32>, Option<Numbers>);

fn branch_is(rt: &impl Abort, branch: Option<CellRec>, unit: u32, want: Option<Numbers>) {
    match (branch, want) {
        (Some(rec), Some(want)) => record_is(rt, &rec, unit, want),
        (None, None) => {}
        _ => assert!(rt; false),
    }
}

fn owned(rt: &impl Abort, top: &Top, unit: u32, asked: &[Asked]) {
    for &(key, owner, branch) in asked {
        assert!(rt; is_cell(key));
        assert_eq!(rt; top.owner(key), owner, "the owner of {key}");
        branch_is(rt, top.branch(key), unit, branch);
    }
}

/// Half the cube's side.
const HALF: u32 = 2 * QUARTER;

/// A small tree of three ranks.
const SMALL: [(u32, Cell<'_>); 5] = [
    (0, (8, &[(0, 0, 0, 2), (QUARTER, 0, 0, 3)])),
    (0, (72, &[(0, 0, HALF, 3)])),
    (1, (79, &[(QUARTER, QUARTER, HALF + QUARTER, 4)])),
    (1, (12, &[(HALF, 0, 0, 1)])),
    (2, (15, &[(HALF, HALF, HALF, 5)])),
];

/// Its root.
const ROOT: Above<'_> = (
    (1, 6, 18, [19, 14, 28], [31, 24, 68, 24, 32, 32]),
    &[8, 9, 12, 15],
);

/// The other cell above its branches.
const NINE: Above<'_> = ((9, 2, 7, [4, 4, 18], [4, 4, 48, 4, 12, 12]), &[72, 79]);

#[test]
fn cells_of_a_small_tree(rt: HostRuntime) {
    let top = merged(&rt, rt.alloc(), 3, &SMALL);
    let places = [(0, Some(ROOT)), (1, Some(NINE)), (2, None)];
    let keys = [
        (1, Some(ROOT)),
        (9, Some(NINE)),
        (8, None),
        (72, None),
        (10, None),
        (0, None),
        (64, None),
    ];
    cells_are(&rt, &top, QUARTER, &places, &keys);
}

/// Keys of the small tree.
const SMALL_ASKED: [Asked; 12] = [
    (1, None, None),
    (9, None, None),
    (8, Some(0), Some((8, 2, 5, [3, 0, 0], [3, 0, 0, 0, 0, 0]))),
    (67, Some(0), None),
    (
        72,
        Some(0),
        Some((72, 1, 3, [0, 0, 6], [0, 0, 12, 0, 0, 0])),
    ),
    (
        79,
        Some(1),
        Some((79, 1, 4, [4, 4, 12], [4, 4, 36, 4, 12, 12])),
    ),
    (78, None, None),
    (12, Some(1), Some((12, 1, 1, [2, 0, 0], [4, 0, 0, 0, 0, 0]))),
    (125, Some(2), None),
    (
        15,
        Some(2),
        Some((15, 1, 5, [10, 10, 10], [20, 20, 20, 20, 20, 20])),
    ),
    (10, None, None),
    (14, None, None),
];

#[test]
fn owners_of_a_small_tree(rt: HostRuntime) {
    let top = merged(&rt, rt.alloc(), 3, &SMALL);
    owned(&rt, &top, QUARTER, &SMALL_ASKED);
}

/// Keys of the top of one rank.
const ALONE_ASKED: [Asked; 3] = [
    (1, Some(0), Some((1, 2, 4, [1, 3, 0], [1, 3, 0, 0, 0, 0]))),
    (8, Some(0), None),
    (FIRST, Some(0), None),
];

#[test]
fn one_rank(rt: HostRuntime) {
    let cell: Cell<'_> = (1, &[(QUARTER, 0, 0, 1), (0, QUARTER, 0, 3)]);
    let alone = merged(&rt, rt.alloc(), 1, &[(0, cell)]);
    cells_are(&rt, &alone, QUARTER, &[(0, None)], &[(1, None)]);
    owned(&rt, &alone, QUARTER, &ALONE_ASKED);
}

#[test]
fn no_ranks(rt: HostRuntime) {
    let none = merged(&rt, rt.alloc(), 0, &[]);
    cells_are(&rt, &none, QUARTER, &[(0, None)], &[(1, None)]);
    owned(&rt, &none, QUARTER, &[(1, None, None), (FIRST, None, None)]);
}

/// Two cells of the last level, of two ranks.
const DEEP: [(u32, Cell<'_>); 2] = [
    (1, (FIRST + 1, &[(0, 0, LAST, 2)])),
    (0, (FIRST + 6, &[(LAST, LAST, 0, 1), (LAST, LAST, 0, 2)])),
];

/// The numbers of a cell with both.
fn both(key: u64) -> Numbers {
    (key, 3, 5, [3, 3, 2], [3, 3, 2, 3, 0, 0])
}

/// Keys of their top.
const DEEP_ASKED: [Asked; 5] = [
    (
        FIRST + 1,
        Some(1),
        Some((FIRST + 1, 1, 2, [0, 0, 2], [0, 0, 2, 0, 0, 0])),
    ),
    (
        FIRST + 6,
        Some(0),
        Some((FIRST + 6, 2, 3, [3, 3, 0], [3, 3, 0, 3, 0, 0])),
    ),
    (FIRST, None, None),
    (FIRST + 7, None, None),
    (FIRST / 8, None, None),
];

#[test]
fn two_ranks_at_the_last_level(rt: HostRuntime) {
    let top = merged(&rt, rt.alloc(), 2, &DEEP);
    let last: Option<Above<'_>> = Some((both(FIRST / 8), &[FIRST + 1, FIRST + 6]));
    let places: [(usize, Option<Above<'_>>); 4] = [
        (0, Some((both(1), &[8]))),
        (19, Some((both(FIRST / 64), &[FIRST / 8]))),
        (20, last),
        (21, None),
    ];
    cells_are(&rt, &top, LAST, &places, &[(FIRST / 8, last)]);
    owned(&rt, &top, LAST, &DEEP_ASKED);
}
