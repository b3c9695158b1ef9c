// The branch lists of the ranks of a set that is split.
ghost use Rattle.std.specs.Prelude.{◌≡◌, ◌<◌, IfOk};
ghost use Rattle.rank_model.specs.World as world;
ghost use Rattle.rank_model.specs.Branches.{branch_records};
ghost use Rattle.work_split.specs.Splits.{world_of};
ghost use Rattle.split_table.specs.Steps.{IsSplit, AreLists};

use hot_model::RecList;
use hot_units::Body;
use key_order::Ordered;
use local_tree::LocalTree;
use std::alloc::{AllocError, Global};
use work_split::Pieces;

/// With this leaf limit no cell is parted, so the tree of a piece keeps no records of cells that
/// nobody asks for.
const WHOLE: u32 = 4_294_967_295;

/// The bodies of a rank, in key order.
pub fn bodies_of<'a>(set: &'a Ordered, pieces: &Pieces, ranks: u32, q: u32) -> &'a [Body]
    requires split { IsSplit set.now ranks pieces.now }
    requires rank { q < ranks }
    ensures value { result.now ≡ world.piece (world_of set.now ranks) q }
    ensures good { world.IsGood (world_of set.now ranks) }
{
    let (from, to) = pieces.range(q);
    let bodies = set.bodies();
    &bodies[from..to]
}

/// The branch list of a rank, by the tree of its piece.
fn list_of(
    alloc: Global,
    set: &Ordered,
    pieces: &Pieces,
    ranks: u32,
    q: u32,
) -> Result<RecList, AllocError>
    requires split { IsSplit set.now ranks pieces.now }
    requires rank { q < ranks }
    ensures value { IfOk result (λ l. l ≡ branch_records (world_of set.now ranks) q) }
    ensures good { world.IsGood (world_of set.now ranks) }
{
    let bodies = bodies_of(set, pieces, ranks, q);
    let (left, right) = pieces.neighbours(set, q);
    let tree = LocalTree::build(alloc, bodies, left, right, WHOLE)?;
    tree.branches()
}

/// The branch lists of all ranks, by ascending rank.
pub fn lists_of(
    alloc: Global,
    set: &Ordered,
    pieces: &Pieces,
    ranks: u32,
) -> Result<Vec<RecList>, AllocError>
    requires split { IsSplit set.now ranks pieces.now }
    ensures lists { IfOk result (λ v. AreLists (world_of set.now ranks) v.items) }
{
    let mut lists = Vec::with_capacity(alloc, ranks as usize)?;
    for q in 0..ranks {
        lists.push(list_of(alloc, set, pieces, ranks, q)?)?;
    }
    Ok(lists)
}
