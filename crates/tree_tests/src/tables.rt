//! Tests of cell_hash.
use cell_hash::{CellTable, InsertRefused};
use std::process::Abort;

/// Sets the value of a key, which had this one.
fn set(rt: &impl Abort, table: &mut CellTable<char>, key: u64, value: char, had: Option<char>) {
    let Ok(was) = table.insert(key, value) else {
        panic!(rt; "memory at {key}");
    };
    assert_eq!(rt; was, had, "at {key}");
}

/// A table has so many keys, and these values of keys.
fn has(rt: &impl Abort, table: &CellTable<char>, len: usize, values: &[(u64, Option<char>)]) {
    assert_eq!(rt; table.len(), len);
    for &(key, value) in values {
        assert_eq!(rt; table.get(key).copied(), value, "at {key}");
    }
}

#[test]
fn keys_of_one_bucket(rt: HostRuntime) {
    let mut table = CellTable::new(rt.alloc(), 4).expect(&rt, "memory");
    set(&rt, &mut table, 8, 'a', None);
    set(&rt, &mut table, 24, 'b', None);
    set(&rt, &mut table, 8, 'c', Some('a'));
    has(
        &rt,
        &table,
        2,
        &[(8, Some('c')), (24, Some('b')), (40, None)],
    );
    if let Some(value) = table.get_mut(24) {
        *value = 'd';
    }
    assert!(rt; table.get_mut(40).is_none());
    has(&rt, &table, 2, &[(24, Some('d'))]);
}

#[test]
fn the_most_buckets_and_the_greatest_key(rt: HostRuntime) {
    let mut table = CellTable::new(rt.alloc(), 24).expect(&rt, "memory");
    for key in [0, u64::MAX, 16777216, 16777215] {
        set(&rt, &mut table, key, 'a', None);
    }
    has(&rt, &table, 4, &[]);
}

/// The keys `factor * i`, modulo 2^64, of a million numbers i have the value i.
fn has_products(rt: &impl Abort, table: &CellTable<u64>, factor: u64) {
    assert_eq!(rt; table.len(), 1_000_000);
    for i in 0..1_000_000 {
        assert_eq!(rt;
            table.get(factor.wrapping_mul(i)).copied(),
            Some(i),
            "by {factor}"
        );
    }
}

#[test]
fn a_million_keys(rt: HostRuntime) {
    // an odd factor gives keys as if at random, a power of 2 keys of one bucket: neither takes long
    for factor in [0x9e37_79b9_7f4a_7c15, 1 << 16] {
        let mut table = CellTable::new(rt.alloc(), 16).expect(&rt, "memory");
        for i in 0..1_000_000 {
            assert!(rt; table.insert(u64::wrapping_mul(factor, i), i).is_ok());
        }
        has_products(&rt, &table, factor);
    }
}

/// Sets the value of a key that is not there. Where memory ran out, the key and its value come
/// back, and what was there stays.
fn try_set(rt: &impl Abort, table: &mut CellTable<u64>, key: u64) {
    let there = table.len();
    match table.insert(key, key % 100 + 100) {
        Ok(was) => assert!(rt; was.is_none() && table.len() > there),
        Err(InsertRefused { key: back, value }) => {
            assert_eq!(rt; (back, value), (key, key % 100 + 100));
            assert!(rt; table.get(key).is_none() && table.len() == there);
        }
    }
}

#[test]
fn refused_memory(rt: HostRuntime) {
    // with each allocation failing in turn
    let Ok(mut table) = CellTable::new(rt.alloc(), 4) else {
        return;
    };
    for key in 0..40 {
        try_set(&rt, &mut table, key);
    }
}
