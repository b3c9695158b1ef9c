ghost use Rattle.std.specs.Prelude.{◌≡◌, ◌<◌, ◌≤◌, ◌^◌, length};
ghost use Rattle.hot_units.specs.Limits.{max_all_mass};
ghost use Rattle.hot_units.specs.Keys as keys;
ghost use Rattle.hot_units.specs.Keys.{IsCell};
ghost use Rattle.hot_units.specs.Bodies.{mass_of};
ghost use Rattle.hot_model.specs.Trees as trees;

use crate::{add, empty, of_body};
use hot_model::CellRec;
use hot_units::{Body, covers};

/// Whether a cell has a body.
fn has(cell: u64, b: &Body) -> bool
    requires cell { IsCell cell }
    ensures value { result ≡ keys.contains cell b.now }
{
    covers(cell, b.key)
}

/// The record of a cell over a list of bodies, added up from those that lie in the cell; together
/// they have a mass of at most 2^40.
pub fn of_inside(cell: u64, bodies: &[Body]) -> CellRec
    requires cell { IsCell cell }
    requires few { length bodies.now < 2 ^ 32 }
    requires light { mass_of (trees.inside bodies.now cell) ≤ max_all_mass }
    ensures value { result ≡ trees.cell_record bodies.now cell }
{
    let mut rec = empty(cell);
    for b in bodies {
        if has(cell, b) {
            add(&mut rec, &of_body(cell, b));
        }
    }
    rec
}
