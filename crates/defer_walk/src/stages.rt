ghost use Rattle.std.specs.Prelude.{◌≡◌, ◌≢◌, ℕ, ◌+◌, ◌-◌, ◌<◌, ◌≤◌, ◌^◌, Bool, false, true, List};
ghost use Rattle.std.specs.Prelude.{[], ◌∷◌, ◌++◌, Some, IfOk, OnOk, length, All, Contains};
ghost use Rattle.std.specs.Prelude.{vec_capacity};
ghost use Rattle.hot_units.specs.Limits.{max_all_mass};
ghost use Rattle.rank_model.specs.World.{World, IsGood, record_in, piece as piece_of};
ghost use Rattle.rank_model.specs.Answers.{true_answer};
ghost use Rattle.rank_model.specs.Pairs.{PairValue, pair_with};
ghost use Rattle.defer_walk.specs.declared.asks.Slot.{Slot};
ghost use Rattle.defer_walk.specs.Asked.{stored_at, Extends};
ghost use Rattle.defer_walk.specs.Grouping.{group, by_children, AreOpened, listed_of, all_listed};
ghost use Rattle.defer_walk.specs.Standing.{meaning, AreStored, Waits, IsAwake, pairs_in, roots};
ghost use Rattle.defer_walk.specs.Standing.{left_by};
ghost use Rattle.defer_walk.specs.Turning.{Beginning, ComesFrom, Runs, AreReady};
ghost use Rattle.defer_walk.specs.Waiting.{Takes, AreWoken};

use crate::asks::Asks;
use crate::cells::Cells;
use crate::groups::{descend, descend_all, near_group, note_all};
use crate::held::{Held, list_places};
use crate::tally::Tally;
use hot_model::{Answer, CellRec, Seen, Visit};
use hot_units::Body;
use std::alloc::{AllocError, Global};

/// So many bodies at most go down the tree together, so that their places stay few and near.
const CHUNK: u32 = 4096;

/// The first advance: all bodies go down from the root as far as the rank has the tree, chunk by
/// chunk from the last.
pub fn begin<V: Visit, C: Cells>(
    alloc: Global,
    visit: &V,
    cells: &C,
    root: CellRec,
    piece: &[Body],
    accs: &mut [V::Acc],
    tally: &mut Tally,
    asks: &mut Asks,
) -> Result<(), AllocError>
    requires fits { (w : World) × (me : ℕ) × (start : Beginning) × C.stands cells.now w me
        × IsGood w × (piece.now ≡ piece_of w me)
        × Runs (meaning V.zero_of V.adds V.opens_by V.Acc.seen_of visit.now) w me start piece.now
        accs.old tally.old asks.old.slots (pairs_in w (roots (length piece.now)))
        (pairs_in w asks.old.pairs) × (start.advanced ≡ false)
        × (record_in w 1 ≡ Some root) }
    ensures stored { (w : World) (me : ℕ) (start : Beginning) → C.stands cells.now w me → IsGood w
        → piece.now ≡ piece_of w me → (start.advanced ≡ false) → (record_in w 1 ≡ Some root)
        → Runs (meaning V.zero_of V.adds V.opens_by V.Acc.seen_of visit.now) w me start piece.now
        accs.old tally.old asks.old.slots (pairs_in w (roots (length piece.now)))
        (pairs_in w asks.old.pairs)
        → AreStored (meaning V.zero_of V.adds V.opens_by V.Acc.seen_of visit.now) w me
        asks.new.slots }
    ensures extends { Extends asks.old.slots asks.new.slots }
    ensures runs { OnOk result
        ((w : World) (me : ℕ) (start : Beginning) → C.stands cells.now w me → IsGood w
        → piece.now ≡ piece_of w me → (start.advanced ≡ false) → (record_in w 1 ≡ Some root)
        → Runs (meaning V.zero_of V.adds V.opens_by V.Acc.seen_of visit.now) w me start
        piece.now accs.old tally.old asks.old.slots (pairs_in w (roots (length piece.now)))
        (pairs_in w asks.old.pairs)
        → Runs (meaning V.zero_of V.adds V.opens_by V.Acc.seen_of visit.now) w me start
        piece.now accs.new tally.new asks.new.slots []
        (pairs_in w asks.new.pairs)) }
{
    let mut leaf = Vec::new(alloc);
    let mut to = piece.len() as u32;
    while to > 0 {
        let from = to.saturating_sub(CHUNK);
        let mut places = list_places(alloc, from, to)?;
        descend(
            alloc,
            visit,
            cells,
            piece,
            accs,
            tally,
            asks,
            &mut leaf,
            &mut places,
            0,
            root,
            false,
        )?;
        to = from;
    }
    Ok(())
}

/// What becomes of bodies whose cell was answered: the bodies of a leaf are added, or `recs` are
/// the children to be tested.
fn wake<V: Visit>(
    visit: &V,
    piece: &[Body],
    accs: &mut [V::Acc],
    tally: &mut Tally,
    waits: &Held,
    answer: &Answer,
    recs: &mut Vec<CellRec>,
) -> Result<(), AllocError>
    requires fits { (w : World) × (me : ℕ) × (start : Beginning) × (slots : List Slot)
        × (keep waiting : List PairValue) × IsGood w × (piece.now ≡ piece_of w me)
        × (stored_at slots waits.now.key ≡ Some answer.now)
        × All
        (Waits (meaning V.zero_of V.adds V.opens_by V.Acc.seen_of visit.now) w me piece.now
        start.slots) (pairs_in w (listed_of waits.now)) × (start.advanced ≡ true)
        × IsAwake start.slots start.pairs waits.now.key
        × Runs (meaning V.zero_of V.adds V.opens_by V.Acc.seen_of visit.now) w me start piece.now
        accs.old tally.old slots (keep ++ pairs_in w (listed_of waits.now)) waiting }
    ensures woken { OnOk result
        ((w : World) (me : ℕ) (start : Beginning) (slots : List Slot)
        (keep waiting : List PairValue) → IsGood w → piece.now ≡ piece_of w me
        → stored_at slots waits.now.key ≡ Some answer.now
        → All
        (Waits (meaning V.zero_of V.adds V.opens_by V.Acc.seen_of visit.now) w me piece.now
        start.slots) (pairs_in w (listed_of waits.now)) → (start.advanced ≡ true)
        → IsAwake start.slots start.pairs waits.now.key
        → Runs (meaning V.zero_of V.adds V.opens_by V.Acc.seen_of visit.now) w me start
        piece.now accs.old tally.old slots (keep ++ pairs_in w (listed_of waits.now))
        waiting
        → Runs (meaning V.zero_of V.adds V.opens_by V.Acc.seen_of visit.now) w me start
        piece.now accs.new tally.new slots
        (keep ++ by_children false waits.now.bodies.items recs.new.items) waiting
        × All (λ r. ComesFrom start.advanced w me start (pair_with 0 false r))
        recs.new.items) }
{
    recs.clear();
    match answer {
        Answer::Bodies(others) => {
            near_group(
                visit,
                piece,
                accs,
                waits.bodies.as_slice(),
                others.as_slice(),
            )?;
            note_all(tally, waits.whole, waits.key, waits.bodies.len())
        }
        Answer::Children(children) => {
            recs.extend_from_slice(children.as_slice())?;
            note_all(tally, waits.whole, waits.key, waits.bodies.len())
        }
    }
}

/// Takes out the bodies that wait for the cells of these keys.
fn take_woken(alloc: Global, asks: &mut Asks, woken: &[u64]) -> Result<Vec<Held>, AllocError>
    ensures slots { asks.new.slots ≡ asks.old.slots }
    ensures taken { IfOk result (λ waits. All (λ h. Contains woken.now h.key) waits.items
        × Takes waits.items asks.old.pairs asks.new.pairs) }
    ensures none { OnOk result
        ((key : ℕ) → Contains woken.now key → All (λ p. p.key ≢ key) asks.new.pairs) }
{
    let mut waits = Vec::new(alloc);
    for key in woken {
        asks.take(alloc, *key, &mut waits)?;
    }
    Ok(waits)
}

/// A later advance: the bodies whose cell was answered go on.
pub fn resume<V: Visit, C: Cells>(
    alloc: Global,
    visit: &V,
    cells: &C,
    piece: &[Body],
    accs: &mut [V::Acc],
    tally: &mut Tally,
    asks: &mut Asks,
    waits: &mut Vec<Held>,
) -> Result<(), AllocError>
    requires fits { (w : World) × (me : ℕ) × (start : Beginning) × C.stands cells.now w me
        × IsGood w × (piece.now ≡ piece_of w me)
        × Runs (meaning V.zero_of V.adds V.opens_by V.Acc.seen_of visit.now) w me start piece.now
        accs.old tally.old asks.old.slots (pairs_in w (all_listed waits.old.items))
        (pairs_in w asks.old.pairs) × (start.advanced ≡ true)
        × All (λ p. IsAwake start.slots start.pairs p.key) (all_listed waits.old.items)
        × All
        (Waits (meaning V.zero_of V.adds V.opens_by V.Acc.seen_of visit.now) w me piece.now
        start.slots) (pairs_in w (all_listed waits.old.items)) }
    ensures stored { (w : World) (me : ℕ) (start : Beginning) → C.stands cells.now w me → IsGood w
        → piece.now ≡ piece_of w me → (start.advanced ≡ true)
        → All (λ p. IsAwake start.slots start.pairs p.key) (all_listed waits.old.items)
        → All
        (Waits (meaning V.zero_of V.adds V.opens_by V.Acc.seen_of visit.now) w me piece.now
        start.slots) (pairs_in w (all_listed waits.old.items))
        → Runs (meaning V.zero_of V.adds V.opens_by V.Acc.seen_of visit.now) w me start piece.now
        accs.old tally.old asks.old.slots (pairs_in w (all_listed waits.old.items))
        (pairs_in w asks.old.pairs)
        → AreStored (meaning V.zero_of V.adds V.opens_by V.Acc.seen_of visit.now) w me
        asks.new.slots }
    ensures extends { Extends asks.old.slots asks.new.slots }
    ensures runs { OnOk result
        ((w : World) (me : ℕ) (start : Beginning) → C.stands cells.now w me → IsGood w
        → piece.now ≡ piece_of w me → (start.advanced ≡ true)
        → All (λ p. IsAwake start.slots start.pairs p.key) (all_listed waits.old.items)
        → All
        (Waits (meaning V.zero_of V.adds V.opens_by V.Acc.seen_of visit.now) w me piece.now
        start.slots) (pairs_in w (all_listed waits.old.items))
        → Runs (meaning V.zero_of V.adds V.opens_by V.Acc.seen_of visit.now) w me start
        piece.now accs.old tally.old asks.old.slots (pairs_in w (all_listed waits.old.items))
        (pairs_in w asks.old.pairs)
        → Runs (meaning V.zero_of V.adds V.opens_by V.Acc.seen_of visit.now) w me start
        piece.now accs.new tally.new asks.new.slots []
        (pairs_in w asks.new.pairs)) }
{
    let mut leaf = Vec::new(alloc);
    let mut recs = Vec::new(alloc);
    let mut places = Vec::new(alloc);
    while let Some(waits_here) = waits.pop() {
        if waits_here.bodies.is_empty() {
            continue;
        }
        let Some(answer) = asks.answer(waits_here.key) else {
            continue;
        };
        wake(visit, piece, accs, tally, &waits_here, answer, &mut recs)?;
        places.clear();
        places.extend_from_slice(waits_here.bodies.as_slice())?;
        descend_all(
            alloc,
            visit,
            cells,
            piece,
            accs,
            tally,
            asks,
            &mut leaf,
            &mut places,
            &mut recs,
        )?;
    }
    Ok(())
}

/// How many pairs wait after an advance. No cell has woken since, and there is room for each that
/// may.
fn end(asks: &Asks, woken: &mut Vec<u64>) -> Result<u64, AllocError>
    ensures count { IfOk result (λ n. n ≡ length asks.now.pairs) }
    ensures none { OnOk result (woken.new.items ≡ []) }
    ensures room { OnOk result (length asks.now.slots ≤ vec_capacity woken.new) }
{
    woken.clear();
    woken.reserve(asks.len())?;
    Ok(asks.left())
}

/// An advance: the first one from the root, later ones from the bodies that wait for the cells of
/// these keys. It answers how many pairs wait then.
pub fn go_on<V: Visit, C: Cells>(
    alloc: Global,
    advanced: bool,
    visit: &V,
    cells: &C,
    piece: &[Body],
    accs: &mut [V::Acc],
    tally: &mut Tally,
    asks: &mut Asks,
    woken: &mut Vec<u64>,
) -> Result<u64, AllocError>
    requires idle { advanced ≡ false → asks.old.pairs ≡ [] }
    requires woken { advanced ≡ true → AreWoken woken.old.items asks.old.slots asks.old.pairs }
    requires fits { (w : World) × (me : ℕ) × (start : Beginning) × C.stands cells.now w me
        × IsGood w × (piece.now ≡ piece_of w me)
        × Runs (meaning V.zero_of V.adds V.opens_by V.Acc.seen_of visit.now) w me start piece.now
        accs.old tally.old asks.old.slots
        (pairs_in w (left_by advanced (length piece.now) asks.old.pairs)) []
        × (start.advanced ≡ advanced)
        × (start.pairs ≡ left_by advanced (length piece.now) asks.old.pairs)
        × AreReady advanced (meaning V.zero_of V.adds V.opens_by V.Acc.seen_of visit.now) w me
        piece.now start.slots (left_by advanced (length piece.now) asks.old.pairs) }
    ensures stored { (w : World) (me : ℕ) (start : Beginning) → C.stands cells.now w me → IsGood w
        → piece.now ≡ piece_of w me → start.advanced ≡ advanced
        → start.pairs ≡ left_by advanced (length piece.now) asks.old.pairs
        → AreReady advanced (meaning V.zero_of V.adds V.opens_by V.Acc.seen_of visit.now) w me
        piece.now start.slots (left_by advanced (length piece.now) asks.old.pairs)
        → Runs (meaning V.zero_of V.adds V.opens_by V.Acc.seen_of visit.now) w me start piece.now
        accs.old tally.old asks.old.slots
        (pairs_in w (left_by advanced (length piece.now) asks.old.pairs)) []
        → AreStored (meaning V.zero_of V.adds V.opens_by V.Acc.seen_of visit.now) w me
        asks.new.slots }
    ensures extends { Extends asks.old.slots asks.new.slots }
    ensures runs { OnOk result
        ((w : World) (me : ℕ) (start : Beginning) → C.stands cells.now w me → IsGood w
        → piece.now ≡ piece_of w me → start.advanced ≡ advanced
        → start.pairs ≡ left_by advanced (length piece.now) asks.old.pairs
        → AreReady advanced (meaning V.zero_of V.adds V.opens_by V.Acc.seen_of visit.now) w me
        piece.now start.slots (left_by advanced (length piece.now) asks.old.pairs)
        → Runs (meaning V.zero_of V.adds V.opens_by V.Acc.seen_of visit.now) w me start
        piece.now accs.old tally.old asks.old.slots
        (pairs_in w (left_by advanced (length piece.now) asks.old.pairs)) []
        → Runs (meaning V.zero_of V.adds V.opens_by V.Acc.seen_of visit.now) w me start
        piece.now accs.new tally.new asks.new.slots [] (pairs_in w asks.new.pairs)) }
    ensures count { IfOk result (λ n. n ≡ length asks.new.pairs) }
    ensures none { OnOk result (woken.new.items ≡ []) }
    ensures room { OnOk result (length asks.new.slots ≤ vec_capacity woken.new) }
{
    if advanced {
        let mut waits = take_woken(alloc, asks, woken)?;
        resume(alloc, visit, cells, piece, accs, tally, asks, &mut waits)?;
        return end(asks, woken);
    }
    if let Some(root) = cells.root() {
        begin(alloc, visit, cells, root, piece, accs, tally, asks)?;
    }
    end(asks, woken)
}

/// As many empty accumulators.
pub fn nothing_added<V: Visit>(
    alloc: Global,
    visit: &V,
    bodies: usize,
) -> Result<Vec<V::Acc>, AllocError>
    ensures long { IfOk result (λ accs. length accs.items ≡ bodies) }
    ensures each { IfOk result (λ accs. All (λ a. a ≡ V.zero_of visit.now) accs.items) }
    ensures none { IfOk result (λ accs. All (λ a. V.Acc.seen_of a ≡ 0) accs.items) }
{
    let mut accs = Vec::new(alloc);
    for _i in 0..bodies {
        accs.push(visit.zero(alloc))?;
    }
    Ok(accs)
}
