// Squared distances of places.
ghost use Rattle.std.specs.Prelude.{◌≡◌, ◌≤◌, ◌<◌, ◌^◌, ◌+◌, ◌*◌};
ghost use Rattle.hot_units.specs.Limits.{fine_bits};
ghost use Rattle.hot_units.specs.Values.{point_at};
ghost use Rattle.hot_model.specs.Kernel as kernel;
ghost use Rattle.hot_model.specs.Kernel.{InCube};

use crate::Eps;

/// The square of how far two coordinates are apart.
#[tactic(auto, using(crate::proofs::Hints::on_along))]
#[inline(always)]
fn gap2(p: u32, c: u32) -> u64
    requires p_in { p < 2 ^ fine_bits }
    requires c_in { c < 2 ^ fine_bits }
    ensures value { result ≡ kernel.square (kernel.apart p c) }
    ensures within { result ≤ 2 ^ 58 }
{
    let gap = u64::from(p.abs_diff(c));
    gap * gap
}

/// The squared distance of two places.
#[tactic(auto, using(crate::proofs::Hints::on_distance))]
#[inline(always)]
pub(crate) fn distance2(p: [u32; 3], c: [u32; 3]) -> u64
    requires p_in { InCube p }
    requires c_in { InCube c }
    ensures value { result ≡ kernel.distance2 (point_at p) (point_at c) }
    ensures within { result ≤ 3 * 2 ^ 58 }
{
    gap2(p[0], c[0]) + gap2(p[1], c[1]) + gap2(p[2], c[2])
}

/// A squared distance with the square of the softening.
#[tactic(auto, using(crate::proofs::Hints::on_soft))]
#[inline(always)]
pub(crate) fn softened(apart: u64, eps: Eps) -> u64
    requires apart_in { apart ≤ 3 * 2 ^ 58 }
    ensures value { result ≡ apart + kernel.square eps }
    ensures above { 0 < result }
    ensures within { result < 2 ^ 60 }
{
    let eps = u64::from(eps.get());
    apart + eps * eps
}

/// The softened squared distance.
#[tactic(auto, using(crate::proofs::Hints::on_soft))]
#[inline(always)]
pub(crate) fn soft2(p: [u32; 3], c: [u32; 3], eps: Eps) -> u64
    requires p_in { InCube p }
    requires c_in { InCube c }
    ensures value { result ≡ kernel.soft2 eps (point_at p) (point_at c) }
    ensures above { 0 < result }
    ensures within { result < 2 ^ 60 }
{
    softened(distance2(p, c), eps)
}
