//! A rank walks, and collects what it lacks.
ghost use Rattle.std.specs.Prelude.{◌≡◌, ◌≤◌, ◌++◌, [], ℕ, ◌⊎◌, true, false, not, map, All};
ghost use Rattle.std.specs.Prelude.{Contains, IsSome, OnOk, IfOk};
ghost use Rattle.rank_model.specs.World.{World};
ghost use Rattle.defer_walk.specs.Asked.{asked_keys, Extends};
ghost use Rattle.defer_walk.specs.Standing.{IsSameWalk, IsSameStage, given_of};
ghost use Rattle.rank_core.specs.RankTree.{IsRankTree};
ghost use Rattle.rank_core.specs.Part.{AreAllHeard, AreAsking, OnlyMerges};
ghost use Rattle.rank_core.specs.Standing.{HoldsSomewhere, WhereHolds, StillHolds, WalkStands};
ghost use Rattle.rank_core.specs.Standing.{WalkSomewhere, WhereWalk, WalkStill, HasWalked};
ghost use Rattle.rank_core.specs.Standing.{IsWanted, Runs, meant_by};
ghost use Rattle.rank_core.specs.Times.{times};

use crate::rank_cells::RankCells;
use crate::request::Request;
use crate::state::State;
use defer_walk::Walk;
use hot_model::Visit;
use std::alloc::{AllocError, Global};

/// Starts the walk the first time, and walks until all that is left waits.
fn walk_all<V: Visit>(
    cells: &RankCells<'_>,
    first: bool,
    walk: &mut Walk<V>,
) -> Result<(), AllocError>
    requires fits { (w : World)
        × IsRankTree w walk.old.me cells.now.me cells.now.leaf cells.now.tree.now cells.now.top.now
        × WalkStands V.Visit V.Acc.Seen w walk.old }
    requires awake { walk.old.starved ≡ false }
    requires started { walk.old.started ≡ not first }
    ensures stands { (w : World)
        → IsRankTree w walk.old.me cells.now.me cells.now.leaf cells.now.tree.now cells.now.top.now
        → WalkStands V.Visit V.Acc.Seen w walk.old → WalkStands V.Visit V.Acc.Seen w walk.new }
    ensures same { IsSameWalk walk.old walk.new }
    ensures given { given_of walk.new ≡ given_of walk.old }
    ensures extends { Extends walk.old.slots walk.new.slots }
    ensures ok { OnOk result ((walk.new.started ≡ true) × (walk.new.starved ≡ false)) }
    ensures walked { (w : World)
        → IsRankTree w walk.old.me cells.now.me cells.now.leaf cells.now.tree.now cells.now.top.now
        → WalkStands V.Visit V.Acc.Seen w walk.old
        → OnOk result (HasWalked (meant_by V.Visit V.Acc.Seen walk.new.visit) w walk.new) }
{
    if first {
        walk.start(cells)?;
    }
    walk.advance(cells)?;
    Ok(())
}

/// Starts the walk once the branch lists of all ranks were heard, and walks until all that is left
/// waits.
pub(crate) fn walk_on<V: Visit>(state: &mut State, walk: &mut Walk<V>) -> Result<(), AllocError>
    requires fits { HoldsSomewhere V.Visit V.Acc.Seen state.old walk.old }
    requires runs { Runs state.old walk.old }
    requires built { IsSome state.old.tree }
    requires read { state.old.inbox.items ≡ [] }
    ensures holds { StillHolds V.Visit V.Acc.Seen state.old walk.old state.new walk.new }
    ensures runs { OnOk result (Runs state.new walk.new) }
    ensures same { IsSameWalk walk.old walk.new }
    ensures given { given_of walk.new ≡ given_of walk.old }
    ensures merges { OnlyMerges state.old state.new }
    ensures extends { Extends walk.old.slots walk.new.slots }
    ensures stays { OnOk result (AreAllHeard state.new ⊎ (walk.new ≡ walk.old)) }
    ensures walked { WhereHolds V.Visit V.Acc.Seen state.old walk.old
        (λ w. OnOk result (AreAllHeard state.new
        → HasWalked (meant_by V.Visit V.Acc.Seen walk.new.visit) w walk.new)) }
{
    if !state.heard.all() {
        return Ok(());
    }
    let first = state.merge()?;
    match state.cells() {
        None => Ok(()),
        Some(cells) => walk_all(&cells, first, walk),
    }
}

/// The requests for all cells that became asked.
pub(crate) fn wanted<V: Visit>(
    alloc: Global,
    walk: &mut Walk<V>,
) -> Result<Vec<Request>, AllocError>
    requires fits { WalkSomewhere V.Visit V.Acc.Seen walk.old }
    ensures stands { WalkStill V.Visit V.Acc.Seen walk.old walk.new }
    ensures same { IsSameWalk walk.old walk.new × IsSameStage walk.old walk.new }
    ensures given { OnOk result (given_of walk.new ≡ asked_keys walk.new.slots) }
    ensures fresh { IfOk result (λ v. given_of walk.new ≡ given_of walk.old
        ++ map (λ r. r.key) v.items) }
    ensures once { ((k : ℕ) → times k (given_of walk.old) ≤ 1)
        → (k : ℕ) → times k (given_of walk.new) ≤ 1 }
    ensures wanted { WhereWalk V.Visit V.Acc.Seen walk.old
        (λ w. IfOk result (λ v. (k : ℕ) → Contains (map (λ r. r.key) v.items) k
        → IsWanted (V.opens_by walk.old.visit) w walk.old k)) }
    ensures asking { WhereWalk V.Visit V.Acc.Seen walk.old
        (λ w. IfOk result (λ v. AreAsking w walk.old.me v.items)) }
{
    let mut requests = Vec::new(alloc);
    while let Some(ask) = walk.asked() {
        requests.push(Request {
            rank: ask.owner,
            key: ask.key,
        })?;
    }
    Ok(requests)
}
