ghost use Rattle.std.specs.Prelude.{◌≡◌, ◌≤◌, ◌++◌, length, IfOk};
ghost use Rattle.hot_units.specs.Limits.{max_ranks};
ghost use Rattle.branch_merge.specs.Listing as listing;

use hot_model::{CellRec, RecList};
use std::alloc::{AllocError, Global};

/// A record in the branch list of a rank.
#[derive(Clone, Copy)]
pub struct Listed {
    pub rank: u32,
    pub rec: CellRec,
}

/// Adds the records of the list of a rank.
fn add_list(listed: &mut Vec<Listed>, rank: u32, list: &RecList) -> Result<(), AllocError>
    ensures added { IfOk result
        (λ _. listed.new.items ≡ listed.old.items ++ listing.of_rank rank list.now) }
{
    for rec in list.as_slice() {
        listed.push(Listed { rank, rec: *rec })?;
    }
    Ok(())
}

/// The records of all lists, list by list, each with its rank.
pub fn gathered(alloc: Global, lists: &[RecList]) -> Result<Vec<Listed>, AllocError>
    requires few { length lists.now ≤ max_ranks }
    ensures value { IfOk result (λ v. v.items ≡ listing.all_listed lists.now) }
{
    let mut listed = Vec::new(alloc);
    for (rank, list) in lists.iter().enumerate() {
        add_list(&mut listed, rank as u32, list)?;
    }
    Ok(listed)
}
