ghost use Rattle.std.specs.Prelude.{◌≡◌, true, IsErr};
ghost use Rattle.tree_tests.specs.UnderWay.{IsUnderWay};

use crate::cells_double::CellsDouble;
use crate::visit_double::HungryVisit;
use defer_walk::{Progress, Walk, WalkResult};
use fixed_kernel::{Eps, ForceVisit, Ratio};
use hot_model::{Answered, Seen, Visit};
use hot_units::Acc3;
use std::alloc::{AllocError, Global};
use std::process::Abort;

/// A walk of the bodies of the rank at hand, started.
fn begun<V: Visit>(rt: &impl Abort, alloc: Global, cells: &CellsDouble, visit: V) -> Walk<V>
    ensures way { IsUnderWay V.zero_of V.adds V.opens_by V.Acc.seen_of cells.now result }
{
    let piece = cells.piece(alloc).expect(rt, "memory");
    let me = cells.rank_at_hand();
    let mut walk = Walk::new(alloc, me, visit, &piece).expect(rt, "memory");
    walk.start(cells).expect(rt, "memory");
    walk
}

/// Advances a walk; how many pairs wait.
fn advanced<V: Visit>(cells: &CellsDouble, walk: &mut Walk<V>) -> Result<u64, AllocError>
    requires way { IsUnderWay V.zero_of V.adds V.opens_by V.Acc.seen_of cells.now walk.old }
    ensures way { IsUnderWay V.zero_of V.adds V.opens_by V.Acc.seen_of cells.now walk.new }
    ensures starved { IsErr result → walk.new.starved ≡ true }
{
    match walk.advance(cells)? {
        Progress::Done => Ok(0),
        Progress::Waiting(n) => Ok(n),
    }
}

/// Takes the next ask of a walk, which is to be for a cell of this owner and key, and supplies its
/// answer; whether there was one.
fn supply_next<V: Visit>(
    rt: &impl Abort,
    alloc: Global,
    cells: &CellsDouble,
    walk: &mut Walk<V>,
    want: (u32, u64),
) -> bool
    requires way { IsUnderWay V.zero_of V.adds V.opens_by V.Acc.seen_of cells.now walk.old }
    ensures way { IsUnderWay V.zero_of V.adds V.opens_by V.Acc.seen_of cells.now walk.new }
{
    let Some(ask) = walk.asked() else {
        return false;
    };
    assert_eq!(rt; (ask.owner, ask.key), want);
    let answer = cells.answer(alloc, ask.key).expect(rt, "memory");
    walk.supply(Answered {
        key: ask.key,
        answer,
    });
    true
}

/// Takes all asks of a walk, which are to be the next of these, and supplies their answers; how
/// many of these were taken by then.
fn supply<V: Visit>(
    rt: &impl Abort,
    alloc: Global,
    cells: &CellsDouble,
    walk: &mut Walk<V>,
    given: usize,
    asks: &[(u32, u64)],
) -> usize
    requires way { IsUnderWay V.zero_of V.adds V.opens_by V.Acc.seen_of cells.now walk.old }
    ensures way { IsUnderWay V.zero_of V.adds V.opens_by V.Acc.seen_of cells.now walk.new }
{
    for at in given..asks.len() {
        if !supply_next(rt, alloc, cells, walk, asks[at]) {
            return at;
        }
    }
    assert!(rt; walk.asked().is_none());
    asks.len()
}

/// Walks to the end: `waits` are the pairs that wait after each advance, `asks` all that is asked
/// for.
fn walked<V: Visit>(
    rt: &impl Abort,
    alloc: Global,
    cells: &CellsDouble,
    visit: V,
    waits: &[u64],
    asks: &[(u32, u64)],
) -> WalkResult<V::Acc> {
    let mut walk = begun(rt, alloc, cells, visit);
    let mut given = 0;
    for &n in waits {
        assert_eq!(rt; advanced(cells, &mut walk).expect(rt, "memory"), n);
        given = supply(rt, alloc, cells, &mut walk, given, asks);
    }
    assert_eq!(rt; given, asks.len());
    assert!(rt; walk.done());
    walk.into_parts().expect(rt, "memory")
}

/// The visit of gravity with an opening ratio, and softening 1.
fn gravity(rt: &impl Abort, ratio: [u32; 2]) -> ForceVisit {
    let ratio = Ratio::new(ratio[0], ratio[1]).expect(rt, "a ratio");
    ForceVisit::new(ratio, Eps::new(1).expect(rt, "a softening"))
}

/// What a walk gives: how many bodies, what each of them saw, how many pairs were opened, how many
/// cells were asked for, and how many cells were opened.
type Gift = (usize, u64, u64, u64, usize);

/// A walk gave this.
fn gave(rt: &impl Abort, got: &WalkResult<Acc3>, want: Gift) {
    let (bodies, seen, opened, asks, cells) = want;
    for acc in &got.accs {
        assert_eq!(rt; acc.seen, seen);
    }
    assert_eq!(rt;
        (got.accs.len(), got.opened, got.asks, got.cells.len()),
        (bodies, opened, asks, cells)
    );
}

/// A walk that was refused memory says so at each further call, and is not done.
fn stays_starved<V: Visit>(rt: &impl Abort, cells: &CellsDouble, walk: &mut Walk<V>)
    requires way { IsUnderWay V.zero_of V.adds V.opens_by V.Acc.seen_of cells.now walk.old }
    requires starved { walk.old.starved ≡ true }
{
    assert!(rt; walk.start(cells).is_err());
    assert!(rt; walk.advance(cells).is_err());
    assert!(rt; !walk.done());
}

/// How many advances of a walk were not refused memory, and whether it came to its end.
fn lasts<V: Visit>(
    rt: &impl Abort,
    alloc: Global,
    cells: &CellsDouble,
    visit: V,
    asks: &[(u32, u64)],
) -> (u32, bool) {
    let mut walk = begun(rt, alloc, cells, visit);
    let mut given = 0;
    for advances in 0..3 {
        if walk.done() {
            return (advances, true);
        }
        if advanced(cells, &mut walk).is_err() {
            stays_starved(rt, cells, &mut walk);
            return (advances, false);
        }
        given = supply(rt, alloc, cells, &mut walk, given, asks);
    }
    (3, walk.done())
}

/// The first key with the digit 4 in front, and with 6.
const FOUR: u64 = 13835058055282163712;

const SIX: u64 = 16140901064495857664;

/// Half the edge of the cube.
const HALF: u32 = 268435456;

/// The opening ratio 0, by which a body opens every cell.
const OPENS_ALL: [u32; 2] = [0, 1];

/// A walk of the bodies of the rank at hand, by gravity with an opening ratio, gives this.
fn gives(
    rt: &impl Abort,
    alloc: Global,
    cells: &CellsDouble,
    ratio: [u32; 2],
    waits: &[u64],
    asks: &[(u32, u64)],
    want: Gift,
) {
    let result = walked(rt, alloc, cells, gravity(rt, ratio), waits, asks);
    gave(rt, &result, want);
}

#[test]
fn two_bodies(rt: HostRuntime) {
    let rows = [[0, 0, 0, 1], [1024, 0, 0, 3]];
    let cells = CellsDouble::new(&rt, rt.alloc(), &rows, &[9223372036854776064], 8, 0);
    let asks = [(1, 144115188075855876)];
    let visit = gravity(&rt, OPENS_ALL);
    let result = walked(&rt, rt.alloc(), &cells, visit, &[1, 0], &asks);
    gave(&rt, &result, (1, 4, 1, 1, 1));
    for acc in &result.accs {
        assert_eq!(rt; [acc.ax, acc.ay], [3145725, 0]);
    }
}

#[test]
fn two_wait_for_one_cell(rt: HostRuntime) {
    let rows = [[0, 0, 0, 1], [256, 0, 0, 2], [HALF, 0, 0, 5]];
    let cells = CellsDouble::new(&rt, rt.alloc(), &rows, &[FOUR], 1, 0);
    // each opens the root, the 20 cells with both bodies, their two leaves, and the other rank's
    // leaf
    let want = (2, 8, 48, 1, 24);
    gives(
        &rt,
        rt.alloc(),
        &cells,
        OPENS_ALL,
        &[2, 0],
        &[(1, 12)],
        want,
    );
}

#[test]
fn a_chain_of_asks(rt: HostRuntime) {
    let rows = [
        [0, 0, 0, 1],
        [HALF, 0, 0, 2],
        [HALF + 33554432, 0, 0, 3],
        [HALF, HALF, 0, 4],
    ];
    let cells = CellsDouble::new(&rt, rt.alloc(), &rows, &[FOUR, SIX], 1, 0);
    let asks = [(2, 14), (1, 12), (1, 96), (1, 768), (1, 6148), (1, 6144)];
    let waits = [2, 1, 1, 2, 0];
    gives(
        &rt,
        rt.alloc(),
        &cells,
        OPENS_ALL,
        &waits,
        &asks,
        (1, 10, 8, 6, 8),
    );
}

#[test]
fn a_leaf_of_two_ranks(rt: HostRuntime) {
    let rows = [
        [0, 0, 0, 1],
        [134217728, 0, 0, 2],
        [134217728, 134217728, 0, 3],
        [HALF, 0, 0, 4],
    ];
    // the second rank begins at the key of the second body
    let cells = CellsDouble::new(&rt, rt.alloc(), &rows, &[9799832789158199296], 3, 0);
    // the root, the leaf of two ranks and the far cell are opened; what lies in the leaf is added
    // whole
    let asks = [(1, 12), (1, 70), (1, 68)];
    gives(
        &rt,
        rt.alloc(),
        &cells,
        OPENS_ALL,
        &[3, 0],
        &asks,
        (1, 10, 3, 3, 3),
    );
}

#[test]
fn no_bodies(rt: HostRuntime) {
    let none: [[u32; 4]; 0] = [];
    let cells = CellsDouble::new(&rt, rt.alloc(), &none, &[FOUR], 1, 1);
    gives(
        &rt,
        rt.alloc(),
        &cells,
        OPENS_ALL,
        &[0],
        &[],
        (0, 0, 0, 0, 0),
    );
    let cells = CellsDouble::new(&rt, rt.alloc(), &[[0, 0, 0, 1]], &[FOUR], 1, 1);
    gives(
        &rt,
        rt.alloc(),
        &cells,
        OPENS_ALL,
        &[0],
        &[],
        (0, 0, 0, 0, 0),
    );
}

/// The cells down to the last level in which the first key with the digit 4 in front lies, as asks
/// of the rank 1.
const DOWN: [(u32, u64); 21] = [
    (1, 12),
    (1, 96),
    (1, 768),
    (1, 6144),
    (1, 49152),
    (1, 393216),
    (1, 3145728),
    (1, 25165824),
    (1, 201326592),
    (1, 1610612736),
    (1, 12884901888),
    (1, 103079215104),
    (1, 824633720832),
    (1, 6597069766656),
    (1, 52776558133248),
    (1, 422212465065984),
    (1, 3377699720527872),
    (1, 27021597764222976),
    (1, 216172782113783808),
    (1, 1729382256910270464),
    (1, 13835058055282163712),
];

/// One pair that waits 21 times, and then none.
const ONE_WAITS: [u64; 22] = [
    1, 1, 1, 1, 1, 1, 1, 1, 1, 1, 1, 1, 1, 1, 1, 1, 1, 1, 1, 1, 1, 0,
];

#[test]
fn at_one_place(rt: HostRuntime) {
    let rows = [[0, 0, 0, 1], [HALF, 0, 0, 2], [HALF, 0, 0, 3]];
    let cells = CellsDouble::new(&rt, rt.alloc(), &rows, &[FOUR], 1, 0);
    // a cell a level, down to the last, which is a leaf
    let want = (1, 6, 23, 21, 23);
    gives(&rt, rt.alloc(), &cells, OPENS_ALL, &ONE_WAITS, &DOWN, want);
}

#[test]
fn five_at_one_place(rt: HostRuntime) {
    let rows = [
        [0, 0, 0, 1],
        [0, 0, 0, 2],
        [0, 0, 0, 3],
        [0, 0, 0, 4],
        [0, 0, 0, 5],
        [HALF, 0, 0, 6],
    ];
    let cells = CellsDouble::new(&rt, rt.alloc(), &rows, &[FOUR], 1, 0);
    // each opens the root, the 21 cells with the five, and the other rank's leaf, which is asked
    // for once
    let want = (5, 21, 115, 1, 23);
    gives(
        &rt,
        rt.alloc(),
        &cells,
        OPENS_ALL,
        &[5, 0],
        &[(1, 12)],
        want,
    );
}

#[test]
fn a_chunk_that_ends_within_one_place(rt: HostRuntime) {
    // a chunk of 4,096, and one of the first two
    let mut rows = Vec::new(rt.alloc());
    for _i in 0..4098 {
        rows.push([0, 0, 0, 1]).expect(&rt, "memory");
    }
    rows.push([HALF, 0, 0, 6]).expect(&rt, "memory");
    let cells = CellsDouble::new(&rt, rt.alloc(), &rows, &[FOUR], 1, 0);
    // as above: 23 cells are opened by each, and the other rank's leaf is asked for once
    let want = (4098, 4104, 94254, 1, 23);
    gives(
        &rt,
        rt.alloc(),
        &cells,
        OPENS_ALL,
        &[4098, 0],
        &[(1, 12)],
        want,
    );
}

#[test]
fn accepted_cells(rt: HostRuntime) {
    let rows = [
        [0, 0, 0, 1],
        [HALF, 0, 0, 2],
        [HALF + 33554432, 0, 0, 3],
        [HALF + 134217728, 0, 0, 4],
        [HALF + 134217984, 0, 0, 5],
    ];
    let cells = CellsDouble::new(&rt, rt.alloc(), &rows, &[FOUR], 1, 0);
    // a cell is opened up to 5/2 of its side: of the children of 12, of side HALF / 2, the near one
    // is, the far one is added as one source; and so is the child of the near one
    let asks = [(1, 12), (1, 96)];
    gives(
        &rt,
        rt.alloc(),
        &cells,
        [2, 5],
        &[1, 1, 0],
        &asks,
        (1, 15, 4, 2, 4),
    );
}

#[test]
fn refused_memory(rt: HostRuntime) {
    let rows = [[0, 0, 0, 1], [1024, 0, 0, 3]];
    let cells = CellsDouble::new(&rt, rt.alloc(), &rows, &[9223372036854776064], 8, 0);
    // at the body at hand, at the one that is answered, and at none
    for (mass, advances, end) in [(1, 0, false), (3, 1, false), (2, 2, true)] {
        let visit = HungryVisit {
            visit: gravity(&rt, OPENS_ALL),
            mass,
        };
        let got = lasts(&rt, rt.alloc(), &cells, visit, &[(1, 144115188075855876)]);
        assert_eq!(rt; got, (advances, end), "mass {mass}");
    }
}
