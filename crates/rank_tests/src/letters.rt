// Letters byte by byte: what is one, and that it is written anew as the same bytes.
ghost use Rattle.std.specs.Prelude.{◌≡◌, ◌<◌, length};

use cell_mail::{Content, Kind, Letter, LetterError, one_content, one_spelling};
use morton_key::{corner, is_cell};
use std::alloc::Global;
use std::process::Abort;
use std::rt::HostRuntime;

/// The record of the cell 2^57 with one body of mass 1 at 0, 0, 0.
const TELLS: [u8; 170] = [
    2, 1, 1, 0, 0, 0, 0, 0, 0, 0, 0, 0, 0, 2, 1, 0, 0, 0, 1, 0, 0, 0, 0, 0, 0, 0, 0, 0, 0, 0, 0, 0,
    0, 0, 0, 0, 0, 0, 0, 0, 0, 0, 0, 0, 0, 0, 0, 0, 0, 0, 0, 0, 0, 0, 0, 0, 0, 0, 0, 0, 0, 0, 0, 0,
    0, 0, 0, 0, 0, 0, 0, 0, 0, 0, 0, 0, 0, 0, 0, 0, 0, 0, 0, 0, 0, 0, 0, 0, 0, 0, 0, 0, 0, 0, 0, 0,
    0, 0, 0, 0, 0, 0, 0, 0, 0, 0, 0, 0, 0, 0, 0, 0, 0, 0, 0, 0, 0, 0, 0, 0, 0, 0, 0, 0, 0, 0, 0, 0,
    0, 0, 0, 0, 0, 0, 0, 0, 0, 0, 0, 0, 0, 0, 0, 0, 0, 0, 0, 0, 0, 0, 0, 0, 0, 0, 0, 0, 0, 0, 0, 0,
    0, 0, 0, 0, 0, 0, 0, 0, 0, 0,
];

/// The cell 2^57 + 4.
const WANTS: [u8; 14] = [2, 2, 1, 0, 0, 0, 4, 0, 0, 0, 0, 0, 0, 2];

/// That cell with its one body, of mass 3 and row 1, at 1024, 0, 0.
const GIVES: [u8; 39] = [
    2, 3, 1, 0, 0, 0, 4, 0, 0, 0, 0, 0, 0, 2, 2, 1, 0, 0, 0, 0, 4, 0, 0, 0, 0, 0, 0, 0, 0, 0, 0, 3,
    0, 0, 0, 1, 0, 0, 0,
];

/// What is no letter.
const REFUSED: [&[u8]; 8] = [
    &[],
    // a byte behind the last item
    &[2, 1, 0, 0, 0, 0, 0],
    // no asks, and no answers
    &[2, 2, 0, 0, 0, 0],
    &[2, 3, 0, 0, 0, 0],
    // version 1, and kind 4
    &[1, 1, 0, 0, 0, 0],
    &[2, 4, 0, 0, 0, 0],
    // a count of 2^32 - 1
    &[2, 2, 255, 255, 255, 255, 4, 0, 0, 0, 0, 0, 0, 2],
    // the root
    &[2, 2, 1, 0, 0, 0, 1, 0, 0, 0, 0, 0, 0, 0],
];

/// The sums of two bodies of mass 1 at the corner of the cell of level 20 that is at 512, 0, 0.
const AT_CORNER: [u128; 9] = [1024, 0, 0, 524_288, 0, 0, 0, 0, 0];

/// Which of these sums is another one, its value, and whether the record is one.
const RECORDS: [(usize, u128, bool); 17] = [
    (0, 1023, false),
    (0, 1024, true),
    (0, u128::MAX, false),
    (1, 1023, false),
    (1, u128::MAX, false),
    (3, 524_287, false),
    (3, 524_288, true),
    (3, 1_046_530, true),
    (3, 1_046_531, false),
    (3, 1 << 101, false),
    (3, u128::MAX, false),
    (4, 522_242, true),
    (4, 522_243, false),
    (6, 522_242, true),
    (6, 522_243, false),
    (6, u128::MAX, false),
    (8, u128::MAX, false),
];

/// The sum of the squares of two bodies at the far end of that cell, and whether the record is one.
const SQUARES: [(u128, bool); 4] = [
    (1_570_815, false),
    (1_570_816, true),
    (2_093_058, true),
    (2_093_059, false),
];

/// Three keys, whether they may be branches, and whether they may be asked for.
const KEYS: [([u64; 3], bool, bool); 10] = [
    ([9, 10, 11], true, true),
    ([9, 9, 10], false, false),
    ([10, 9, 11], false, false),
    // the second in the first, by one, two and three levels, and by one level with a cell between
    // them
    ([9, 9 * 8 + 1, 700], false, true),
    ([9, 9 * 64 + 63, 700], false, true),
    ([8, 9, 8 * 512 + 511], false, true),
    ([8, 9, 67], false, true),
    ([8, 9, 80], true, true),
    ([64, 65, 5 * 128], true, true),
    ([9, 16, 17], false, false),
];

/// The key of a leaf, how many bodies it has, and whether it may be an answer.
const LEAVES: [(u64, u8, bool); 6] = [
    (1 << 60, 64, true),
    (1 << 60, 65, false),
    (1 << 63, 65, true),
    (1 << 63, 0, false),
    (1 << 3, 1, true),
    (1, 1, false),
];

/// The key of a cell, those of children, and whether they may be an answer.
const CHILDREN: [(u64, &[u64], bool); 11] = [
    (8, &[64, 71], true),
    (8, &[64, 65, 66, 67, 68, 69, 70, 71], true),
    (8, &[71, 64], false),
    (8, &[64, 64], false),
    (8, &[64, 72], false),
    (8, &[63, 64], false),
    (8, &[64, 65, 66, 67, 68, 69, 70, 71, 71], false),
    (8, &[64, 512], false),
    (8, &[8], false),
    (8, &[], false),
    // no answer is for the root
    (1, &[8, 9], false),
];

/// The same letter, written anew.
fn rewritten(rt: &impl Abort, alloc: Global, letter: &Letter) -> Letter
    ensures letter { result ≡ letter.now }
{
    let from = letter.from();
    let to = letter.to();
    match letter.read(alloc).expect(rt, "memory") {
        Content::Branches(cells) => Letter::branches(alloc, from, to, &cells).expect(rt, "memory"),
        Content::Asks(keys) => Letter::asks(alloc, from, to, &keys).expect(rt, "memory"),
        Content::Answers(items) => Letter::answers(alloc, from, to, &items).expect(rt, "memory"),
    }
}

fn is_as(rt: &impl Abort, letter: &Letter, bytes: &[u8], kind: Kind, key: u64) {
    assert!(rt; letter.from() == 0 && letter.to() == 1);
    assert!(rt; letter.kind() == kind && letter.count() == 1);
    assert!(rt; letter.key(0) == Some(key) && letter.key(1).is_none());
    assert_eq!(rt; letter.keys().len(), 1);
    assert!(rt; letter.bytes() == bytes);
}

fn stays(rt: &impl Abort, alloc: Global, bytes: &[u8], kind: Kind, key: u64) {
    let read = Letter::from_bytes(alloc, 0, 1, bytes).expect(rt, "a letter, or memory");
    is_as(rt, &read, bytes, kind, key);
    is_as(rt, &read.copy(alloc).expect(rt, "memory"), bytes, kind, key);
    is_as(rt, &rewritten(rt, alloc, &read), bytes, kind, key);
}

#[test]
fn examples(rt: HostRuntime) {
    let cell = 144_115_188_075_855_872;
    stays(&rt, rt.alloc(), &TELLS, Kind::Branches, cell);
    stays(&rt, rt.alloc(), &WANTS, Kind::Asks, cell + 4);
    stays(&rt, rt.alloc(), &GIVES, Kind::Answers, cell + 4);
    one_content();
    one_spelling();
}

/// Whether the bytes are a letter; it is written anew as the same bytes.
fn is_letter(rt: &impl Abort, alloc: Global, bytes: &[u8]) -> bool {
    match Letter::from_bytes(alloc, 5, 63, bytes) {
        Ok(letter) => {
            let again = rewritten(rt, alloc, &letter);
            assert!(rt; again.bytes() == bytes);
            true
        }
        Err(LetterError::NotALetter) => false,
        Err(LetterError::Memory) => panic!(rt; "memory"),
    }
}

/// The bytes with another value at one place.
fn changed(rt: &impl Abort, alloc: Global, bytes: &[u8], at: usize, value: u8) -> Vec<u8>
    requires within { at < length bytes.now }
{
    let mut changed = bytes.to_vec(alloc).expect(rt, "memory");
    changed[at] = value;
    changed
}

/// How many values at all places of a letter leave a letter.
fn good_changes(rt: &impl Abort, alloc: Global, bytes: &[u8]) -> u32 {
    let mut good = 0_u32;
    for at in 0..bytes.len() {
        for value in 0..=u8::MAX {
            if is_letter(rt, alloc, changed(rt, alloc, bytes, at, value).as_slice()) {
                good = good.saturating_add(1);
            }
        }
    }
    good
}

#[test]
fn one_byte_changes(rt: HostRuntime) {
    // six places have one good value; the key has 10, since a cell off the corner has no such sums;
    // count and mass have 4 and 1282; each sum 256 + 4 + 14, each product sum 256 + 256 + 16 + 13
    let tells = 6 + 10 + 4 + 1282 + 3 * 274 + 6 * 541;
    assert_eq!(rt; good_changes(&rt, rt.alloc(), &TELLS), tells);
    assert_eq!(rt; good_changes(&rt, rt.alloc(), &WANTS), 6 + 1938);
    // here the key, the tag and the number of bodies have one good value a place; x, y and z have
    // 262 each, mass 1023, row 529
    let gives = 6 + 8 + 1 + 4 + 3 * 262 + 1023 + 529;
    assert_eq!(rt; good_changes(&rt, rt.alloc(), &GIVES), gives);
}

/// Without its last byte it is no letter.
fn is_whole(rt: &impl Abort, alloc: Global, bytes: &[u8]) {
    let shorter = bytes.len().saturating_sub(1);
    assert!(rt; !is_letter(rt, alloc, &bytes[..shorter]));
}

#[test]
fn no_letters(rt: HostRuntime) {
    let alloc = rt.alloc();
    is_whole(&rt, alloc, &WANTS);
    is_whole(&rt, alloc, &TELLS);
    is_whole(&rt, alloc, &GIVES);
    for (at, bytes) in REFUSED.iter().enumerate() {
        assert!(rt; !is_letter(&rt, alloc, *bytes), "case {at}");
    }
    // no branches
    assert!(rt; is_letter(&rt, alloc, &[2, 1, 0, 0, 0, 0]));
}

/// Writes bytes behind others.
fn put(rt: &impl Abort, bytes: &mut Vec<u8>, more: &[u8]) {
    bytes.extend_from_slice(more).expect(rt, "memory");
}

/// Writes nine sums.
fn put_sums(rt: &impl Abort, bytes: &mut Vec<u8>, sums: &[u128; 9]) {
    for sum in sums {
        put(rt, bytes, &sum.to_le_bytes());
    }
}

/// Writes the record of a cell with one body of mass 1 at its corner.
fn put_record(rt: &impl Abort, bytes: &mut Vec<u8>, key: u64) {
    let at = if is_cell(key) { corner(key) } else { [0; 3] };
    let [x, y, z] = [u128::from(at[0]), u128::from(at[1]), u128::from(at[2])];
    put(rt, bytes, &key.to_le_bytes());
    put(rt, bytes, &TELLS[14..26]);
    put_sums(
        rt,
        bytes,
        &[x, y, z, x * x, y * y, z * z, x * y, x * z, y * z],
    );
}

/// Whether there is a record of the cell of level 20 at 512, 0, 0 with two bodies of mass 1 and
/// these sums.
fn is_record(rt: &impl Abort, alloc: Global, sums: &[u128; 9]) -> bool {
    let mut bytes = Vec::new(alloc);
    put(rt, &mut bytes, &[2, 1, 1, 0, 0, 0]);
    put(rt, &mut bytes, &1_152_921_504_606_846_980u64.to_le_bytes());
    put(rt, &mut bytes, &[2, 0, 0, 0, 2, 0, 0, 0, 0, 0, 0, 0]);
    put_sums(rt, &mut bytes, sums);
    is_letter(rt, alloc, bytes.as_slice())
}

#[test]
fn records_at_each_bound(rt: HostRuntime) {
    for (place, value, good) in RECORDS.as_slice() {
        let mut sums = AT_CORNER;
        sums[*place % 9] = *value;
        assert!(rt;
            is_record(&rt, rt.alloc(), &sums) == *good,
            "sum {place} is {value}"
        );
    }
    for (value, good) in SQUARES.as_slice() {
        let sums = [2046, 0, 0, *value, 0, 0, 0, 0, 0];
        assert!(rt;
            is_record(&rt, rt.alloc(), &sums) == *good,
            "square {value}"
        );
    }
}

/// The branches letter of cells with one body each.
fn of_branches(rt: &impl Abort, alloc: Global, keys: &[u64]) -> Vec<u8> {
    let mut bytes = Vec::new(alloc);
    put(rt, &mut bytes, &[2, 1, keys.len().min(255) as u8, 0, 0, 0]);
    for key in keys {
        put_record(rt, &mut bytes, *key);
    }
    bytes
}

/// The asks letter for cells.
fn of_asks(rt: &impl Abort, alloc: Global, keys: &[u64]) -> Vec<u8> {
    let mut bytes = Vec::new(alloc);
    put(rt, &mut bytes, &[2, 2, keys.len().min(255) as u8, 0, 0, 0]);
    for key in keys {
        put(rt, &mut bytes, &key.to_le_bytes());
    }
    bytes
}

#[test]
fn keys_in_order_and_apart(rt: HostRuntime) {
    let alloc = rt.alloc();
    for (at, (keys, tells, wants)) in KEYS.iter().enumerate() {
        let told = of_branches(&rt, alloc, keys);
        assert!(rt;
            is_letter(&rt, alloc, told.as_slice()) == *tells,
            "branches {at}"
        );
        let wanted = of_asks(&rt, alloc, keys);
        assert!(rt;
            is_letter(&rt, alloc, wanted.as_slice()) == *wants,
            "asks {at}"
        );
    }
}

/// The answers letter of a cell with so many bodies of mass 1 at 0, 0, 0, and rows from 0 on.
fn of_bodies(rt: &impl Abort, alloc: Global, key: u64, count: u8) -> Vec<u8> {
    let mut bytes = Vec::new(alloc);
    put(rt, &mut bytes, &[2, 3, 1, 0, 0, 0]);
    put(rt, &mut bytes, &key.to_le_bytes());
    put(rt, &mut bytes, &[2, count, 0, 0, 0]);
    for row in 0..count {
        put(rt, &mut bytes, &[0; 12]);
        put(rt, &mut bytes, &[1, 0, 0, 0, row, 0, 0, 0]);
    }
    bytes
}

#[test]
fn bodies_of_a_leaf(rt: HostRuntime) {
    let alloc = rt.alloc();
    for (key, count, good) in LEAVES.as_slice() {
        let bytes = of_bodies(&rt, alloc, *key, *count);
        assert!(rt;
            is_letter(&rt, alloc, bytes.as_slice()) == *good,
            "{count} bodies of {key}"
        );
    }
}

/// Writes the item of a cell with these children, each with one body of mass 1 at its corner.
fn put_children(rt: &impl Abort, bytes: &mut Vec<u8>, key: u64, kids: &[u64]) {
    put(rt, bytes, &key.to_le_bytes());
    put(rt, bytes, &[1, kids.len().min(255) as u8, 0, 0, 0]);
    for kid in kids {
        put_record(rt, bytes, *kid);
    }
}

#[test]
fn children_of_a_cell(rt: HostRuntime) {
    for (at, (key, kids, good)) in CHILDREN.iter().enumerate() {
        let mut bytes = Vec::new(rt.alloc());
        put(&rt, &mut bytes, &[2, 3, 1, 0, 0, 0]);
        put_children(&rt, &mut bytes, *key, *kids);
        let found = is_letter(&rt, rt.alloc(), bytes.as_slice());
        assert!(rt; found == *good, "case {at}");
    }
}

#[test]
fn two_items(rt: HostRuntime) {
    let alloc = rt.alloc();
    let told = of_branches(&rt, alloc, &[9, 10]);
    assert!(rt; is_letter(&rt, alloc, told.as_slice()), "two records");
    // children, and the bodies of a cell in theirs
    let mut both = Vec::new(alloc);
    put(&rt, &mut both, &[2, 3, 2, 0, 0, 0]);
    put_children(&rt, &mut both, 8, &[64, 71]);
    put(&rt, &mut both, &GIVES[6..]);
    assert!(rt;
        is_letter(&rt, alloc, both.as_slice()),
        "the lesser key first"
    );
    let mut turned = Vec::new(alloc);
    put(&rt, &mut turned, &[2, 3, 2, 0, 0, 0]);
    put(&rt, &mut turned, &GIVES[6..]);
    put_children(&rt, &mut turned, 8, &[64, 71]);
    assert!(rt;
        !is_letter(&rt, alloc, turned.as_slice()),
        "the greater key first"
    );
}
