// Putting results into the order of rows.
ghost use Rattle.std.specs.Prelude.{◌≡◌, ◌<◌, length, map, All, IfOk};
ghost use Rattle.hot_units.specs.Bodies.{RowsDiffer};
ghost use Rattle.rank_set.specs.Places.{ArePlaced};

use hot_units::Body;
use std::alloc::{AllocError, Global};

/// The rows of bodies, in their order.
fn rows_of(alloc: Global, bodies: &[Body]) -> Result<Vec<u32>, AllocError>
    ensures rows { IfOk result (λ rows. rows.items ≡ map (λ b. b.row) bodies.now) }
{
    let mut rows = Vec::with_capacity(alloc, bodies.len())?;
    for body in bodies {
        rows.push(body.row)?;
    }
    Ok(rows)
}

/// The results of bodies, each at the row of its body. They are moved about within their list,
/// cycle by cycle of the permutation, so that beside it a list of the rows alone is made.
///
/// The rows are those of a list of as many bodies: they differ, and each is below their number. The
/// error is want of memory.
pub fn place_by_row<A: Drop>(
    alloc: Global,
    bodies: &[Body],
    results: Vec<A>,
) -> Result<Vec<A>, AllocError>
    requires paired { length bodies.now ≡ length results.items }
    requires rows_differ { RowsDiffer bodies.now }
    requires rows_in { All (λ b. b.row < length bodies.now) bodies.now }
    ensures placed { IfOk result (λ placed. ArePlaced bodies.now results.items placed.items) }
{
    let mut rows = rows_of(alloc, bodies)?;
    let mut placed = results;
    let mut place = 0;
    while place < rows.len() {
        let row = rows[place] as usize;
        if row == place {
            place += 1;
        } else {
            rows.swap(place, row);
            placed.swap(place, row);
        }
    }
    Ok(placed)
}
