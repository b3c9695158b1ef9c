// The branches of all ranks in one list.
ghost use Rattle.std.specs.Prelude.{◌≡◌, ◌≤◌, map, ltb, IfOk};
ghost use Rattle.std.specs.Ordering.{is_lt};
ghost use Rattle.hot_units.specs.Limits.{max_ranks};
ghost use Rattle.rank_model.specs.World.{World};
ghost use Rattle.split_table.specs.Table.{branch_of, branch_cells, branches_over};
ghost use Rattle.split_table.specs.Steps.{AreLists, AreByKey};

use crate::lists::lists_of;
use branch_merge::{Listed, gathered};
use hot_model::RecList;
use key_order::Ordered;
use std::alloc::{AllocError, Global};
use std::cmp::Ordering;
use work_split::split;

/// Which of two records comes first: by the key of its cell.
fn by_key(a: &Listed, b: &Listed) -> Ordering
    ensures { is_lt result ≡ ltb a.now.rec.key b.now.rec.key }
{
    a.rec.key.cmp(&b.rec.key)
}

/// The records by ascending key, by std's sort, which works in place.
fn in_key_order(mut listed: Vec<Listed>) -> Vec<Listed>
    ensures order { AreByKey listed.items result.items }
{
    listed.sort_unstable_by(by_key);
    listed
}

/// The branches of all ranks by ascending key, each with its rank, from the branch lists.
pub fn all_branches(alloc: Global, lists: &[RecList]) -> Result<Vec<Listed>, AllocError>
    requires lists { (w : World) × AreLists w lists.now }
    ensures value { IfOk result
        (λ v. (w : World) → AreLists w lists.now → v.items ≡ map (branch_of w) (branch_cells w)) }
{
    let listed = gathered(alloc, lists)?;
    Ok(in_key_order(listed))
}

/// The branches of a set that is split over 1 to 64 ranks by its work weights (Warren and Salmon,
/// 1993), by ascending key, each with its rank and its record over all bodies: those of a
/// [`SplitTable`](crate::SplitTable), without the top cells. A refusal is want of memory.
pub fn branches_of_ranks(
    alloc: Global,
    set: &Ordered,
    ranks: u32,
) -> Result<Vec<Listed>, AllocError>
    requires one { 1 ≤ ranks }
    requires many { ranks ≤ max_ranks }
    ensures value { IfOk result (λ v. v.items ≡ branches_over set.now ranks) }
{
    let pieces = split(alloc, set, ranks)?;
    let lists = lists_of(alloc, set, &pieces, ranks)?;
    all_branches(alloc, &lists)
}
