// The top cells.
ghost use Rattle.std.specs.Prelude.{◌≡◌, map, IfOk};
ghost use Rattle.hot_model.specs.Trees.{cell_record};
ghost use Rattle.rank_model.specs.World.{World};
ghost use Rattle.rank_model.specs.Branches as branches;
ghost use Rattle.split_table.specs.Steps.{AreLists};

use branch_merge::Top;
use hot_model::{CellRec, RecList};
use std::alloc::{AllocError, Global};

/// The records of the top cells over all bodies, by ascending key, from the branch lists.
pub fn top_records(alloc: Global, lists: &[RecList]) -> Result<Vec<CellRec>, AllocError>
    requires lists { (w : World) × AreLists w lists.now }
    ensures value { IfOk result
        (λ v. (w : World) → AreLists w lists.now
        → v.items ≡ map (cell_record w.bodies) (branches.tops w)) }
{
    let top = Top::merge(alloc, lists)?;
    let mut records = Vec::new(alloc);
    while let Some(cell) = top.at(records.len()) {
        records.push(cell.rec)?;
    }
    Ok(records)
}
