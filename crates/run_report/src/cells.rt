// The cells in play: how many different ones there are.
ghost use Rattle.std.specs.Prelude.{◌≡◌, ℕ, List, length, IfOk};
ghost use Rattle.run_report.specs.Report.{AreInPlay};

use branch_merge::Listed;
use std::alloc::{AllocError, Global};

/// How many different cells are opened or branches: all keys are put into one list, which is
/// sorted, so that equal keys stand side by side.
pub fn cells_in_play(alloc: Global, opened: &[u64], branches: &[Listed]) -> Result<u64, AllocError>
    ensures count { IfOk result (λ n. (keys : List ℕ)
        → AreInPlay opened.now branches.now keys → n ≡ length keys) }
{
    let mut keys = Vec::from_slice(alloc, opened)?;
    for branch in branches {
        keys.push(branch.rec.key)?;
    }
    keys.sort_unstable();
    keys.dedup();
    Ok(keys.len() as u64)
}
