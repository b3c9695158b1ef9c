ghost use Rattle.std.specs.Prelude.{◌≡◌, ◌<◌, IfOk, map};
ghost use Rattle.hot_units.specs.Numbers.{numbers_below};
ghost use Rattle.work_split.specs.Splits.{world_of};
ghost use Rattle.split_table.specs.Table as tables;
ghost use Rattle.split_table.specs.Steps.{IsSplit, AreLists};

use crate::lists::bodies_of;
use hot_model::RecList;
use key_order::Ordered;
use std::alloc::{AllocError, Global};
use work_split::Pieces;

/// What a rank has of a split: how many bodies, their weight, and how many branches.
#[derive(Clone, Copy)]
pub struct Share {
    pub rank: u32,
    pub bodies: usize,
    pub weight: u64,
    pub branches: usize,
}

/// What each rank has, by ascending rank.
pub fn shares_of(
    alloc: Global,
    set: &Ordered,
    pieces: &Pieces,
    lists: &[RecList],
    ranks: u32,
) -> Result<Vec<Share>, AllocError>
    requires split { IsSplit set.now ranks pieces.now }
    requires lists { AreLists (world_of set.now ranks) lists.now }
    ensures value { IfOk result
        (λ v. v.items ≡ map (tables.share_of set.now ranks) (numbers_below ranks)) }
{
    let mut shares = Vec::with_capacity(alloc, ranks as usize)?;
    for q in 0..ranks {
        let list = &lists[q as usize];
        shares.push(Share {
            rank: q,
            bodies: bodies_of(set, pieces, ranks, q).len(),
            weight: pieces.weight(q),
            branches: list.len(),
        })?;
    }
    Ok(shares)
}
