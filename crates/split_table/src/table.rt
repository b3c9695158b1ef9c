ghost use Rattle.std.specs.Prelude.{◌≡◌, ◌≤◌, IfOk};
ghost use Rattle.hot_units.specs.Limits.{max_ranks};
ghost use Rattle.split_table.specs.Table as tables;

use crate::Share;
use crate::branches::all_branches;
use crate::lists::lists_of;
use crate::share::shares_of;
use crate::tops::top_records;
use branch_merge::Listed;
use hot_model::CellRec;
use key_order::Ordered;
use std::alloc::{AllocError, Global};
use std::marker::Model;
use work_split::split;

/// What a set of bodies that is split over ranks shows: the share of each rank, in their order; the
/// branches of all ranks, by ascending key, each with its rank and its record over all bodies; and
/// the records of the top cells, by ascending key.
#[derive(Drop)]
pub struct SplitTable {
    shares: Vec<Share>,
    branches: Vec<Listed>,
    tops: Vec<CellRec>,
}

impl Model for SplitTable {
    ghost use Rattle.split_table.specs.Table.{TableValue};

    ghost Value = { TableValue };

    ghost view = { λ t. record {
      shares = t.shares.items;
      branches = t.branches.items;
      tops = t.tops.items;
    } };
}

impl SplitTable {
    /// The table of a set that is split over 1 to 64 ranks by its work weights (Warren and Salmon,
    /// 1993). A refusal is want of memory.
    pub fn of(alloc: Global, set: &Ordered, ranks: u32) -> Result<SplitTable, AllocError>
        requires one { 1 ≤ ranks }
        requires many { ranks ≤ max_ranks }
        ensures value { IfOk result (λ t. t ≡ tables.table_of set.now ranks) }
    {
        let pieces = split(alloc, set, ranks)?;
        let lists = lists_of(alloc, set, &pieces, ranks)?;
        let shares = shares_of(alloc, set, &pieces, &lists, ranks)?;
        let branches = all_branches(alloc, &lists)?;
        let tops = top_records(alloc, &lists)?;
        Ok(SplitTable {
            shares,
            branches,
            tops,
        })
    }

    /// What each rank has, by ascending rank.
    pub fn shares(&self) -> &[Share]
        ensures value { result.now ≡ self.now.shares }
    {
        self.shares.as_slice()
    }

    /// The branches of all ranks, by ascending key.
    pub fn branches(&self) -> &[Listed]
        ensures value { result.now ≡ self.now.branches }
    {
        self.branches.as_slice()
    }

    /// The records of the top cells, by ascending key.
    pub fn tops(&self) -> &[CellRec]
        ensures value { result.now ≡ self.now.tops }
    {
        self.tops.as_slice()
    }
}
