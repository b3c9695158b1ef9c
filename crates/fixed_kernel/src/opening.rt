// Where a cell counts, and whether it counts as one source.
ghost use Rattle.std.specs.Prelude.{◌≡◌, ◌<◌};
ghost use Rattle.hot_units.specs.Values.{coordinates, point_at};
ghost use Rattle.hot_units.specs.Keys.{IsInBox};
ghost use Rattle.hot_model.specs.Kernel as kernel;
ghost use Rattle.hot_model.specs.Kernel.{InCube};

use crate::Ratio;
use crate::distance::distance2;
use hot_model::CellRec;
use hot_units::{Body, covers, level};

/// The centre of mass of a cell that is not empty, rounded down on each axis: three fine
/// coordinates, a place in the cell. It takes no memory.
#[inline]
pub fn centre(c: &CellRec) -> [u32; 3]
    requires not_empty { 0 < c.now.count }
    ensures value { result ≡ coordinates (kernel.centre c.now) }
    ensures within { InCube result }
    ensures in_cell { IsInBox c.now.key (point_at result) }
{
    c.centre()
}

/// The opening test of Barnes and Hut (1986): whether a cell that is not empty counts as one source
/// for the body, since its side is less than the ratio times the distance from the body to its
/// centre of mass.
///
/// The test is strict, so a cell at equality is opened, and a cell that contains the body is always
/// opened. It compares whole numbers exactly, takes no memory and divides nothing.
#[tactic(auto, using(crate::proofs::Hints::on_accepts), unfolding(hot_model::specs::Kernel::accepts),)]
#[inline]
pub fn accepts(b: &Body, c: &CellRec, ratio: Ratio) -> bool
    requires not_empty { 0 < c.now.count }
    ensures value { result ≡ kernel.accepts ratio.num ratio.den b.now c.now }
{
    if covers(c.key, b.key) {
        return false;
    }
    let _num = ratio.num();
    let _den = ratio.den();
    let beyond = ratio.reach() >> (2 * level(c.key));
    beyond < u128::from(distance2([b.x, b.y, b.z], centre(c)))
}
