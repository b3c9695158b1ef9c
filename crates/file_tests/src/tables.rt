// The table of a split, and its text.
use crate::samples::{Row, set_of};
use hot_io::MemSink;
use hot_model::CellRec;
use split_table::{SplitTable, split_text};
use std::alloc::Global;
use std::process::Abort;

const TWO_FAR_APART: [Row; 2] = [([0, 0, 0], 1, 1), ([1_048_576, 0, 0], 2, 1)];

/// The small tree of docs/MODEL.md: by key the bodies stand in the cells 8, 72, 79, 12 and 15. The
/// weights below them are 0, 1, 3, 4 and 7 of 9, so their ranks are 0, 0, 1, 1 and 2.
const SMALL_TREE: [Row; 5] = [
    ([1_048_576, 1_048_576, 1_048_576], 5, 2),
    ([0, 0, 1_048_576], 2, 2),
    ([1_048_576, 0, 0], 4, 3),
    ([524_288, 524_288, 1_572_864], 3, 1),
    ([0, 0, 0], 1, 1),
];

/// The text of no bodies over two ranks.
const EMPTY_TEXT: &[u8] =
    b"# hot split 1\nrank 0 bodies 0 weight 0 branches 0\nrank 1 bodies 0 weight 0 branches 0\n# end split\n";

/// The text of the two bodies that stand far apart, over two ranks.
const FAR_TEXT: &[u8] =
    b"# hot split 1\nrank 0 bodies 1 weight 1 branches 1\nrank 1 bodies 1 weight 1 branches 1\nbranch 8 rank 0 count 1 mass 1 sum 0 0 0\nbranch 12 rank 1 count 1 mass 2 sum 536870912 0 0\ntop 1 count 2 mass 3 sum 536870912 0 0\n# end split\n";

/// The text of the small tree over three ranks.
const TREE_TEXT: &[u8] =
    b"# hot split 1\nrank 0 bodies 2 weight 3 branches 2\nrank 1 bodies 2 weight 4 branches 2\nrank 2 bodies 1 weight 2 branches 1\nbranch 8 rank 0 count 1 mass 1 sum 0 0 0\nbranch 12 rank 1 count 1 mass 4 sum 1073741824 0 0\nbranch 15 rank 2 count 1 mass 5 sum 1342177280 1342177280 1342177280\nbranch 72 rank 0 count 1 mass 2 sum 0 0 536870912\nbranch 79 rank 1 count 1 mass 3 sum 402653184 402653184 1207959552\ntop 1 count 5 mass 15 sum 2818572288 1744830464 3087007744\ntop 9 count 2 mass 5 sum 402653184 402653184 1744830464\n# end split\n";

fn table_of(rt: &impl Abort, alloc: Global, rows: &[Row], ranks: u32) -> SplitTable {
    assert!(rt; 1 <= ranks && ranks <= 64);
    let set = set_of(rt, alloc, rows);
    SplitTable::of(alloc, &set, ranks).expect(rt, "memory")
}

/// The text of a table in a sink: all of it, or the front that has room, and a failure.
fn text_is(
    rt: &impl Abort,
    alloc: Global,
    table: &SplitTable,
    text: &[u8],
    chunk: usize,
    room: usize,
) {
    assert!(rt; 1 <= chunk && room <= 1000);
    let mut out = MemSink::new(alloc, chunk, room as u64).expect(rt, "memory");
    let outcome = split_text(&mut out, table);
    assert_eq!(rt; outcome.is_err(), room < text.len());
    assert_eq!(rt; out.written(), &text[..room.min(text.len())]);
}

#[test]
fn worked_texts(rt: HostRuntime) {
    let alloc = rt.alloc();
    text_is(
        &rt,
        alloc,
        &table_of(&rt, alloc, &[], 2),
        EMPTY_TEXT,
        5,
        200,
    );
    let far = table_of(&rt, alloc, &TWO_FAR_APART, 2);
    text_is(&rt, alloc, &far, FAR_TEXT, 1000, 1000);
    text_is(&rt, alloc, &far, FAR_TEXT, 1000, 20);
    text_is(
        &rt,
        alloc,
        &table_of(&rt, alloc, &SMALL_TREE, 3),
        TREE_TEXT,
        64,
        1000,
    );
}

fn record_is(rt: &impl Abort, rec: &CellRec, key: u64, count: u32, sum: u128) {
    assert!(rt; rec.key == key && rec.count == count);
    assert!(rt; rec.mass == u64::from(count));
    assert!(rt; [rec.sx, rec.sy, rec.sz] == [sum, 0, 0]);
}

/// Four bodies one after another on the x axis, and no work weights.
const FOUR_CLOSE: [Row; 4] = [
    ([0, 0, 0], 1, 0),
    ([1, 0, 0], 1, 0),
    ([2, 0, 0], 1, 0),
    ([3, 0, 0], 1, 0),
];

#[test]
fn four_close_together(rt: HostRuntime) {
    let table = table_of(&rt, rt.alloc(), &FOUR_CLOSE, 2);
    for share in table.shares() {
        assert_eq!(rt; (share.bodies, share.weight, share.branches), (2, 2, 1));
    }
    // the branches are of level 20, and end in the digits 0 and 4
    let pair = 1_152_921_504_606_846_976;
    let branches = table.branches();
    assert_eq!(rt; (table.shares().len(), branches.len()), (2, 2));
    record_is(&rt, &branches[0].rec, pair, 2, 256);
    record_is(&rt, &branches[1].rec, pair + 4, 2, 1280);
    assert_eq!(rt; (branches[0].rank, branches[1].rank), (0, 1));
    // above them stand the 20 cells of the digits 0 alone
    assert_eq!(rt; table.tops().len(), 20);
    let mut key = 1;
    for rec in table.tops() {
        record_is(&rt, rec, key, 4, 1536);
        key <<= 3;
    }
}
