//! The cube of a list of files.
ghost use Rattle.std.specs.Prelude.{◌≡◌, true, false, MatchOption};
ghost use Rattle.body_file.specs.Faults as faults;

use body_set::BodySet;
use hot_units::Cube;
use std::alloc::Global;

/// Whether both cubes are the same.
fn is_cube(a: Cube, b: Cube) -> bool
    ensures { result ≡ faults.is_cube a b }
{
    a.bits == b.bits && a.x0 == b.x0 && a.y0 == b.y0 && a.z0 == b.z0
}

/// The set that the rows of a file of this cube follow: that of the files before, or an empty one
/// where there are none. None exactly where the files before have another cube.
pub fn set_before(alloc: Global, before: Option<BodySet>, cube: Cube) -> Option<BodySet>
    ensures { MatchOption result (faults.differs before cube ≡ true)
        (λ set. (faults.differs before cube ≡ false) × (set ≡ faults.set_before before cube)) }
{
    let Some(set) = before else {
        return Some(BodySet::new(alloc, cube));
    };
    if is_cube(set.cube(), cube) {
        Some(set)
    } else {
        None
    }
}
