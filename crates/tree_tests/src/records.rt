//! Tests of moments.
use hot_model::CellRec;
use hot_units::{body_of, covers};
use moments::{add, empty, of_body};

/// A record as count, mass and the three sums.
fn numbers(rec: &CellRec) -> (u32, u64, [u128; 3]) {
    (rec.count, rec.mass, [rec.sx, rec.sy, rec.sz])
}

/// The six product sums of a record: xx, yy, zz, xy, xz, yz.
fn products(rec: &CellRec) -> [u128; 6] {
    [rec.sxx, rec.syy, rec.szz, rec.sxy, rec.sxz, rec.syz]
}

/// The record of the root with one body, or with none where the numbers are out of range.
#[tactic(auto, using(crate::proofs::Hints::on_roots))]
fn of_place(x: u32, y: u32, z: u32, mass: u32) -> CellRec {
    match body_of(x, y, z, mass, 0) {
        Some(b) => of_body(1, &b),
        None => empty(1),
    }
}

/// The record of two small bodies.
fn joined(one: CellRec, other: &CellRec) -> CellRec {
    let mut both = one;
    if one.count == 1 && other.count == 1 && one.mass < 8 && other.mass < 8 {
        if covers(one.key, other.key) {
            add(&mut both, other);
        }
    }
    both
}

#[test]
fn sums_of_one_body(rt: HostRuntime) {
    assert_eq!(rt; numbers(&empty(8)), (0, 0, [0; 3]));
    let one = of_place(5, 7, 11, 2);
    assert_eq!(rt; numbers(&one), (1, 2, [10, 14, 22]));
    assert_eq!(rt; products(&one), [50, 98, 242, 70, 110, 154]);
}

#[test]
fn sums_of_two_bodies(rt: HostRuntime) {
    let both = joined(of_place(0, 0, 0, 1), &of_place(1024, 0, 0, 3));
    assert_eq!(rt; numbers(&both), (2, 4, [3072, 0, 0]));
    assert_eq!(rt; products(&both), [3_145_728, 0, 0, 0, 0, 0]);
    assert_eq!(rt; both.key, 1);
    assert_eq!(rt; both.centre(), [768, 0, 0]);
}
