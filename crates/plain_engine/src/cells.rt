ghost use Rattle.std.specs.Prelude.{◌≡◌, ◌<◌, ◌≤◌, ◌^◌, IfOk, length};
ghost use Rattle.hot_units.specs.Limits.{max_all_mass};
ghost use Rattle.hot_units.specs.Keys as keys;
ghost use Rattle.hot_model.specs.Trees as trees;

use hot_units::{Body, covers};
use std::alloc::{AllocError, Global};

/// The bodies of a cell.
#[tactic(auto, using(crate::proofs::Hints::on_inside))]
pub fn inside(alloc: Global, bodies: &[Body], cell: u64) -> Result<Vec<Body>, AllocError>
    requires { keys.IsCell cell }
    ensures { IfOk result (λ v. v.items ≡ trees.inside bodies.now cell) }
{
    let mut kept = Vec::new(alloc);
    for b in bodies {
        if is_inside(cell, b) {
            kept.push(*b)?;
        }
    }
    Ok(kept)
}

/// Whether a cell has a body.
fn is_inside(cell: u64, b: &Body) -> bool
    requires { keys.IsCell cell }
    ensures { result ≡ keys.contains cell b.now }
{
    covers(cell, b.key)
}
