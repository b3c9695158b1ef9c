// The walk of all bodies over ranks.
ghost use Rattle.std.specs.Prelude.{◌≡◌, [], IfOk};
ghost use Rattle.wire.specs.Desk.{rounds_in};
ghost use Rattle.rank_set.specs.Sharings.{shared};
ghost use Rattle.rank_walk.specs.Marks.{Leaves};
ghost use Rattle.rank_set.specs.Standing.{AreFoundBy};

use hot_model::Visit;
use key_order::Ordered;
use rank_set::{Found, Sharing, gather, make_ranks};
use round_runner::run;
use std::alloc::{AllocError, Global};
use std::thread::Threads;
use wire::{Gate, Wire};

/// Walks all bodies of a set through one tree, shared out over ranks that step on threads and send
/// each other letters (Warren and Salmon, 1993): the set is split by its work weights, each rank
/// builds the tree of its piece, tells its branches, and asks for what it opens of the trees of
/// others.
///
/// Whatever the bodies, their weights, the number of ranks, the leaf limit, the visit, the wire and
/// the mail, the accumulator of each body is that of the recursive walk of one tree over all
/// bodies. The wire is begun with the mail, just before the run. Where the run came to its end
/// nothing is pending and the log is complete: each rank asked for exactly the cells that it needs,
/// each once, within the bounds on letters and rounds. The error is want of memory; then the wire
/// is as it was, or its log is legal so far.
pub fn walk_over_ranks<R: Threads + Sync, V: Visit + Copy, M: Wire, G: Gate>(
    rt: &R,
    alloc: Global,
    set: &Ordered,
    sharing: Sharing,
    visit: V,
    wire: &mut M,
    gate: &G,
) -> Result<Found<V::Acc>, AllocError>
    requires quiet { (M.desk wire.old).pending ≡ [] }
    ensures finds { IfOk result (AreFoundBy V.Visit V.Acc.Seen visit (shared set.now sharing)) }
    ensures rounds { IfOk result (λ f. f.rounds ≡ rounds_in (M.desk wire.new).log) }
    ensures left { Leaves M.desk (V.opens_by visit) (shared set.now sharing) sharing.mail
        wire.old result wire.new }
    ensures eager { (M.desk wire.new).eager ≡ (M.desk wire.old).eager }
{
    let mut ranks = make_ranks(alloc, set, sharing, visit)?;
    wire.begin(sharing.mail);
    let rounds = run(rt, alloc, &mut ranks, wire, gate)?;
    gather(alloc, ranks, rounds)
}
