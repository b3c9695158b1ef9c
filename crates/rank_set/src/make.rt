// The ranks of a set that is split.
ghost use Rattle.std.specs.Prelude.{◌≡◌, ◌<◌, ◌≤◌, length, IfOk};
ghost use Rattle.hot_units.specs.Limits.{max_ranks};
ghost use Rattle.rank_model.specs.World.{IsGood};
ghost use Rattle.rank_core.specs.Standing.{StandsIn};
ghost use Rattle.protocol.specs.Joint.{AllNew};
ghost use Rattle.protocol.specs.Ranks.{seats};
ghost use Rattle.rank_set.specs.Sharings.{shared};
ghost use Rattle.rank_set.specs.Made.{IsRankOf};
ghost use Rattle.rank_set.specs.Standing.{StandTogether};
ghost use Rattle.work_split.specs.Splits.{ranks_of, pieces_of};

use crate::Sharing;
use hot_model::Visit;
use key_order::Ordered;
use rank_core::Rank;
use std::alloc::{AllocError, Global};
use work_split::{Pieces, split};

/// Rank `q` of a set that is split.
fn make_rank<V: Visit>(
    alloc: Global,
    set: &Ordered,
    pieces: &Pieces,
    sharing: Sharing,
    q: u32,
    visit: V,
) -> Result<Rank<V>, AllocError>
    requires rank { q < sharing.ranks }
    requires ranks { ranks_of pieces.now ≡ sharing.ranks }
    requires split { pieces.now ≡ pieces_of set.now sharing.ranks }
    ensures made { IfOk result (λ r.
        IsRankOf (StandsIn V.Visit V.Acc.Seen) visit (shared set.now sharing) q r) }
    ensures good { IsGood (shared set.now sharing) }
{
    let (from, to) = pieces.range(q);
    let (left, right) = pieces.neighbours(set, q);
    let bodies = set.bodies();
    Rank::new(
        alloc,
        q,
        sharing.ranks,
        &bodies[from..to],
        left,
        right,
        sharing.leaf,
        visit,
    )
}

/// The ranks of a set whose walk is shared out: its bodies are cut, along the order of their keys,
/// into pieces of equal work (Warren and Salmon, 1993), and rank `q` gets piece `q`.
///
/// They stand together for the world of the set, and have done nothing yet. The error is want of
/// memory.
pub fn make_ranks<V: Visit + Copy>(
    alloc: Global,
    set: &Ordered,
    sharing: Sharing,
    visit: V,
) -> Result<Vec<Rank<V>>, AllocError>
    ensures new { IfOk result (λ rs. AllNew (seats rs.items)) }
    ensures few { IfOk result (λ rs. length rs.items ≤ max_ranks) }
    ensures together { IfOk result (λ rs.
        StandTogether V.Visit V.Acc.Seen visit (shared set.now sharing) rs.items) }
{
    let pieces = split(alloc, set, sharing.ranks)?;
    let mut ranks = Vec::with_capacity(alloc, sharing.ranks as usize)?;
    for q in 0..sharing.ranks {
        ranks.push(make_rank(alloc, set, &pieces, sharing, q, visit)?)?;
    }
    Ok(ranks)
}
