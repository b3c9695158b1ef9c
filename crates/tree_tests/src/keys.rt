//! Tests of morton_key.
use morton_key::{Spread, child, first_key, is_cell, key_of, last_key, level, parent};

const FIRST_BODY: u64 = 9_223_372_036_854_775_808;

/// The largest coordinate.
const END: u32 = 536_870_911;

/// Places with their keys.
const PLACES: [([u32; 3], u64); 3] = [
    ([0, 0, 0], FIRST_BODY),
    ([END, END, END], u64::MAX),
    // 3 is the digit at level 20, and 4 that at level 21
    ([256, 512, 512], 9_223_372_036_854_775_836),
];

#[test]
fn worked_keys(rt: HostRuntime) {
    for &(at, want) in &PLACES {
        assert!(rt; at[0] <= END && at[1] <= END && at[2] <= END);
        assert_eq!(rt; key_of(at[0], at[1], at[2]), want);
    }
}

/// Bytes with their entries.
const ENTRIES: [(u32, u32); 6] = [
    (0, 0),
    (1, 1),
    (2, 8),
    (3, 9),
    (128, 2_097_152),
    (255, 2_396_745),
];

#[test]
fn worked_entries(rt: HostRuntime) {
    let bytes = Spread::of_bytes();
    for &(byte, want) in &ENTRIES {
        assert!(rt; byte < 256);
        assert_eq!(rt; bytes.entry(byte), want, "of {byte}");
    }
}

/// Numbers with whether they are keys of cells.
const NUMBERS: [(u64, bool); 10] = [
    (0, false),
    (1, true),
    (2, false),
    (7, false),
    (8, true),
    (15, true),
    (16, false),
    (FIRST_BODY, true),
    (FIRST_BODY - 1, false),
    (u64::MAX, true),
];

#[test]
fn worked_cells(rt: HostRuntime) {
    for &(key, want) in &NUMBERS {
        assert_eq!(rt; is_cell(key), want, "at {key}");
    }
}

/// Cells with their level and their parent.
const LEVELS: [(u64, u32, Option<u64>); 4] = [
    (1, 0, None),
    (15, 1, Some(1)),
    (FIRST_BODY, 21, Some(1_152_921_504_606_846_976)),
    (u64::MAX, 21, Some(2_305_843_009_213_693_951)),
];

#[test]
fn worked_levels(rt: HostRuntime) {
    for &(key, depth, above) in &LEVELS {
        assert!(rt; is_cell(key));
        assert_eq!(rt; level(key), depth, "at {key}");
        assert_eq!(rt; parent(key), above, "at {key}");
    }
}

#[test]
fn worked_children(rt: HostRuntime) {
    for (key, digit, want) in [(FIRST_BODY, 0, None), (1, 7, Some(15))] {
        assert!(rt; is_cell(key) && digit < 8);
        assert_eq!(rt; child(key, digit), want, "at {key}");
    }
}

#[test]
fn worked_ranges(rt: HostRuntime) {
    // an eighth of the keys, 2^60 of them, in a cell of level 1
    let eighth = 10_376_293_541_461_622_783;
    for (key, last) in [(1, u64::MAX), (8, eighth)] {
        assert!(rt; is_cell(key));
        assert_eq!(rt; first_key(key), FIRST_BODY, "at {key}");
        assert_eq!(rt; last_key(key), last, "at {key}");
    }
}
