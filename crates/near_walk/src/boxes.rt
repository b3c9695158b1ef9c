// Squared distances of places and boxes.
ghost use Rattle.std.specs.Prelude.{◌≡◌, ◌≤◌, ◌<◌, ◌^◌, ◌-◌, ◌/◌, ◌*◌};
ghost use Rattle.hot_units.specs.Limits.{fine_bits};
ghost use Rattle.hot_units.specs.Values.{point_at};
ghost use Rattle.hot_model.specs.Kernel as kernel;
ghost use Rattle.hot_model.specs.Kernel.{InCube};
ghost use Rattle.near_walk.specs.Near as near;

use hot_model::CellRec;
use hot_units::level;
use hot_units::limits::FINE_BITS;

/// The square of how far two coordinates are apart.
#[inline]
fn apart2(p: u32, c: u32) -> u64
    requires p_in { p < 2 ^ fine_bits }
    requires c_in { c < 2 ^ fine_bits }
    ensures value { result ≡ kernel.square (kernel.apart p c) }
    ensures within { result ≤ 2 ^ 58 }
{
    let gap = u64::from(p.abs_diff(c));
    gap * gap
}

/// The squared distance of two places.
#[tactic(auto, using(crate::proofs::Hints::on_distance))]
#[inline]
pub(crate) fn distance2(p: [u32; 3], c: [u32; 3]) -> u64
    requires p_in { InCube p }
    requires c_in { InCube c }
    ensures value { result ≡ kernel.distance2 (point_at p) (point_at c) }
{
    apart2(p[0], c[0]) + apart2(p[1], c[1]) + apart2(p[2], c[2])
}

/// The square of how far a coordinate is from a cell along an axis, by the coordinate of a place in
/// the cell and the number of bits below the cell's key.
#[inline]
fn gap2(p: u32, inside: u32, below: u32) -> u64
    requires p_in { p < 2 ^ fine_bits }
    requires inside_in { inside < 2 ^ fine_bits }
    requires below_in { below ≤ fine_bits }
    ensures value { result
        ≡ kernel.square (near.gap_along p (inside / 2 ^ below * 2 ^ below) (2 ^ below - 1)) }
    ensures within { result ≤ 2 ^ 58 }
{
    let first = (inside >> below) << below;
    let last = first + ((1 << below) - 1);
    let gap = u64::from(first.saturating_sub(p) + p.saturating_sub(last));
    gap * gap
}

/// The squared distance of a place from the box of a cell that is not empty. The cell's centre lies
/// in its box, and so gives the corner.
#[inline]
pub(crate) fn box_distance2(p: [u32; 3], c: &CellRec) -> u64
    requires p_in { InCube p }
    requires not_empty { 0 < c.now.count }
    ensures value { result ≡ near.box_distance2 (point_at p) c.now.key }
{
    let inside = c.centre();
    let below = FINE_BITS - level(c.key);
    gap2(p[0], inside[0], below) + gap2(p[1], inside[1], below) + gap2(p[2], inside[2], below)
}
