// The depth by a mass: its quotient is guessed and tested, and there is a division where the guess
// fails.
ghost use Rattle.std.specs.Prelude.{◌≡◌, ◌≤◌, ◌<◌, ◌^◌, ◌*◌, ◌/◌};
ghost use Rattle.hot_units.specs.Limits.{fine_bits, max_all_mass};
ghost use Rattle.hot_units.specs.Values.{point_at};
ghost use Rattle.hot_model.specs.Kernel as kernel;
ghost use Rattle.hot_model.specs.Kernel.{InCube};
ghost use Rattle.fixed_kernel.specs.Softened.{scaled_root};
ghost use Rattle.well_walk.specs.Wells as wells;

use fixed_kernel::{Eps, root};
use std::num::saturating_f64_to_i64;

const FLOAT_TWO_50: f64 = 1125899906842624.0;

/// The square of how far two coordinates are apart.
#[tactic(auto, using(crate::proofs::Hints::on_products))]
#[inline(always)]
fn apart2(p: u32, c: u32) -> u64
    requires p_in { p < 2 ^ fine_bits }
    requires c_in { c < 2 ^ fine_bits }
    ensures value { result ≡ kernel.square (kernel.apart p c) }
    ensures within { result ≤ 2 ^ 58 }
{
    let apart = u64::from(p.abs_diff(c));
    apart * apart
}

/// The softened squared distance of two places.
#[tactic(auto, using(crate::proofs::Hints::on_distance))]
#[inline(always)]
fn soft2(p: [u32; 3], c: [u32; 3], eps: Eps) -> u64
    requires p_in { InCube p }
    requires c_in { InCube c }
    ensures value { result ≡ kernel.soft2 eps (point_at p) (point_at c) }
    ensures above { 0 < result }
    ensures within { result < 2 ^ 60 }
{
    let eps = u64::from(eps.get());
    apart2(p[0], c[0]) + apart2(p[1], c[1]) + apart2(p[2], c[2]) + eps * eps
}

/// The root of a softened squared distance, in units of 2^-10.
#[tactic(auto, using(crate::proofs::Hints::on_root))]
#[inline(always)]
fn root_of(soft: u64) -> u64
    requires above { 0 < soft }
    requires within { soft < 2 ^ 60 }
    ensures value { result ≡ scaled_root soft }
    ensures least { 2 ^ 10 ≤ result }
    ensures most { result < 2 ^ 40 }
{
    root(u128::from(soft) * (1 << 20)) as u64
}

/// What floats suggest for the mass times 2^50 by the root. Nothing is promised of it: who takes it
/// tests it.
#[inline(always)]
fn hint_depth(mass: u64, root: u64) -> u64
    requires mass_in { mass ≤ max_all_mass }
    requires root_in { root < 2 ^ 40 }
{
    let size = mass as i64 as f64 * FLOAT_TWO_50;
    saturating_f64_to_i64(size / root as i64 as f64).unsigned_abs()
}

/// The mass times 2^50 by the root, by a division.
#[cold]
#[inline(never)]
fn divided(mass: u64, root: u64) -> u128
    requires mass_in { mass ≤ max_all_mass }
    requires above { 0 < root }
    ensures value { result ≡ mass * 2 ^ 50 / root }
{
    u128::from(mass) * (1 << 50) / u128::from(root)
}

/// The mass times 2^50 by the root, where a hint may be it.
#[tactic(auto, using(crate::proofs::Hints::on_quotient))]
#[inline(always)]
fn depth_by(mass: u64, root: u64, hint: u64) -> u128
    requires mass_in { mass ≤ max_all_mass }
    requires above { 0 < root }
    requires root_in { root < 2 ^ 40 }
    ensures value { result ≡ mass * 2 ^ 50 / root }
{
    let size = u128::from(mass) * (1 << 50);
    let whole = u128::from(hint) * u128::from(root);
    if whole <= size && size - whole < u128::from(root) {
        u128::from(hint)
    } else {
        divided(mass, root)
    }
}

/// How deep a body at `p` lies in the field of a mass at `c`, by gravity with Plummer softening:
/// `mass * 2^50 / s`, rounded down. Here `s` is the root of `r2 * 2^20`, rounded down, and `r2` the
/// squared distance plus the square of `eps`.
///
/// Places are in fine units, each coordinate below 2^29, the mass is at most 2^40, and the depth is
/// in units of 2^-40 of mass over fine distance. It is at most 2^40 times the mass. It takes no
/// memory.
#[tactic(auto, using(crate::proofs::Hints::on_depth), unfolding(crate::specs::Wells::depth))]
#[inline]
pub fn depth(p: [u32; 3], c: [u32; 3], mass: u64, eps: Eps) -> u128
    requires p_in { InCube p }
    requires c_in { InCube c }
    requires mass_in { mass ≤ max_all_mass }
    ensures value { result ≡ wells.depth eps (point_at p) (point_at c) mass }
    ensures within { result ≤ mass * 2 ^ 40 }
{
    let root = root_of(soft2(p, c, eps));
    depth_by(mass, root, hint_depth(mass, root))
}
