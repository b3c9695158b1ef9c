ghost use Rattle.std.specs.Prelude.{ℕ, Contains, IfOk};
ghost use Rattle.hot_units.specs.Keys.{IsCell};
ghost use Rattle.branch_merge.specs.Tops.{AreTops};
ghost use Rattle.branch_merge.specs.Merged.{AreCells, Gains, HasAbove};

use crate::Listed;
use hot_units::covers;
use morton_key::parent;
use std::alloc::{AllocError, Global};

/// The root: nothing is above it.
const ROOT: u64 = 1;

/// Adds the keys of the cells above a cell, from its parent up to the first that is also above a
/// cell for which they have been added.
fn add_above(keys: &mut Vec<u64>, cell: u64, before: u64) -> Result<(), AllocError>
    requires cell { IsCell cell }
    requires before { IsCell before }
    requires added { HasAbove keys.old.items before }
    ensures gains { IfOk result (λ _. Gains keys.old.items keys.new.items cell) }
{
    let mut below = cell;
    while let Some(above) = parent(below) {
        if above != before && covers(above, before) {
            return Ok(());
        }
        keys.push(above)?;
        below = above;
    }
    Ok(())
}

/// The keys of the cells above the listed ones, ascending. In Morton order each is added but once.
pub(crate) fn keys_above(alloc: Global, listed: &[Listed]) -> Result<Vec<u64>, AllocError>
    ensures tops { IfOk result (λ v. AreTops listed.now v.items) }
    ensures cells { IfOk result (λ _. AreCells listed.now) }
{
    let mut keys = Vec::new(alloc);
    let mut before = ROOT;
    for x in listed {
        let rec = &x.rec;
        add_above(&mut keys, rec.key, before)?;
        before = rec.key;
    }
    keys.sort_unstable();
    keys.dedup();
    Ok(keys)
}
