// The pull of a mass. Where bounds of it have the same quotients, these are it. Elsewhere quotients
// are guessed and tested, and there is a division where a guess fails.
ghost use Rattle.std.specs.Prelude.{IfSome, IsTrue, ◌↔◌, ◌-◌, ◌≡◌, ◌/◌, ◌≤◌, ◌<◌, ◌^◌, ◌*◌};
ghost use Rattle.hot_units.specs.Limits.{fine_bits, max_all_mass};
ghost use Rattle.hot_units.specs.Values.{point_at, components};
ghost use Rattle.hot_model.specs.Kernel as kernel;
ghost use Rattle.hot_model.specs.Kernel.{InCube, IsPullBy};
ghost use Rattle.fixed_kernel.specs.Softened.{divisor_of, softened_pull, point};
ghost use Rattle.fixed_kernel.specs.Tried.{MayTry};

use crate::Eps;
use crate::bounds::bound_pull;
use crate::distance::soft2;
use crate::floats::{PullHints, hint_pull};
use crate::roots::root_by;

/// A hint of a quotient below this may be tried whatever the divisor is.
const ALWAYS_TRIED: u64 = 1 << 28;

/// The largest hint of a quotient that may be tried.
#[tactic(auto, using(crate::proofs::Hints::on_most))]
#[inline(always)]
fn most(by: u128) -> u64
    requires by_in { by < 2 ^ 100 }
    ensures fits { result * by < 2 ^ 128 }
    ensures within { result < 2 ^ 51 }
{
    let top = (by >> 64) as u64;
    if top < 1 << 13 {
        (1 << 51) - 1
    } else if top < 1 << 24 {
        (1 << 40) - 1
    } else {
        ALWAYS_TRIED - 1
    }
}

/// Whether three hints are small enough to be tried.
#[tactic(auto, using(crate::proofs::Hints::on_try))]
#[inline(always)]
fn may_try(by: u128, x: u64, y: u64, z: u64) -> bool
    requires by_in { by < 2 ^ 100 }
    ensures { IsTrue result → MayTry by x × MayTry by y × MayTry by z }
{
    let all = x | y | z;
    if all < ALWAYS_TRIED {
        return true;
    }
    all <= most(by)
}

/// Whether a hint is the quotient.
#[tactic(auto, using(crate::proofs::Hints::on_quotient))]
#[inline(always)]
fn is_quotient(n: u128, by: u128, hint: u64) -> bool
    requires fits { hint * by < 2 ^ 128 }
    requires by_in { 0 < by }
    ensures { IsTrue result ↔ (hint ≡ n / by) }
{
    let whole = u128::from(hint) * by;
    whole <= n && n - whole < by
}

/// The dividend of one component of the pull.
#[tactic(auto, using(crate::proofs::Hints::on_along))]
#[inline(always)]
fn dividend(p: u32, c: u32, mass: u64) -> u128
    requires p_in { p < 2 ^ fine_bits }
    requires c_in { c < 2 ^ fine_bits }
    requires mass_in { mass ≤ max_all_mass }
    ensures value { result ≡ mass * kernel.apart p c * 2 ^ 50 }
    ensures within { result ≤ 2 ^ 119 }
{
    u128::from(mass) * u128::from(p.abs_diff(c)) * (1 << 50)
}

/// One component of the pull, by its size.
#[inline(always)]
pub(crate) fn toward(p: u32, c: u32, size: u64) -> i128
    requires { size < 2 ^ 63 }
    ensures { result ≡ kernel.toward p c size }
{
    let size = size as i64;
    i128::from(if p <= c { size } else { -size })
}

/// One component of the pull, by a division.
#[tactic(auto, using(crate::proofs::Hints::on_along), unfolding(hot_model::specs::Kernel::pull_along),)]
#[cold]
#[inline(never)]
fn pull_along(p: u32, c: u32, mass: u64, by: u128) -> i128
    requires p_in { p < 2 ^ fine_bits }
    requires c_in { c < 2 ^ fine_bits }
    requires mass_in { mass ≤ max_all_mass }
    requires by_in { 0 < by }
    ensures { result ≡ kernel.pull_along p c mass by }
{
    let size = (dividend(p, c, mass) / by) as i128;
    if p <= c { size } else { -size }
}

/// The pull where hints may be the quotients.
#[inline(always)]
fn pull_by(p: [u32; 3], c: [u32; 3], mass: u64, by: u128, hints: PullHints) -> [i128; 3]
    requires p_in { InCube p }
    requires c_in { InCube c }
    requires mass_in { mass ≤ max_all_mass }
    requires by_above { 0 < by }
    requires by_in { by < 2 ^ 100 }
    ensures { result ≡ components (kernel.pull_over by (point_at p) (point_at c) mass) }
{
    if may_try(by, hints.x, hints.y, hints.z)
        && is_quotient(dividend(p[0], c[0], mass), by, hints.x)
        && is_quotient(dividend(p[1], c[1], mass), by, hints.y)
        && is_quotient(dividend(p[2], c[2], mass), by, hints.z)
    {
        [
            toward(p[0], c[0], hints.x),
            toward(p[1], c[1], hints.y),
            toward(p[2], c[2], hints.z),
        ]
    } else {
        [
            pull_along(p[0], c[0], mass, by),
            pull_along(p[1], c[1], mass, by),
            pull_along(p[2], c[2], mass, by),
        ]
    }
}

/// The divisor of the pull, where a hint may be the root.
#[tactic(auto, using(crate::proofs::Hints::on_divisor))]
#[inline(always)]
fn divisor(soft: u64, hint: u64) -> u128
    requires above { 0 < soft }
    requires within { soft < 2 ^ 60 }
    ensures value { result ≡ divisor_of soft }
    ensures above { 0 < result }
    ensures within { result < 2 ^ 100 }
{
    let soft = u128::from(soft);
    soft * root_by(soft * (1 << 20), hint)
}

/// The pull where its bounds have the same quotients.
#[inline(always)]
fn certain_pull(p: [u32; 3], c: [u32; 3], mass: u64, soft: u64) -> Option<[i128; 3]>
    requires p_in { InCube p }
    requires c_in { InCube c }
    requires above { 0 < soft }
    ensures { IfSome result (λ r. r ≡ softened_pull soft (point_at p) (point_at c) mass) }
{
    let of = bound_pull(soft, mass)?;
    let dx = u64::from(p[0].abs_diff(c[0]));
    let dy = u64::from(p[1].abs_diff(c[1]));
    let dz = u64::from(p[2].abs_diff(c[2]));
    let x = of.low * dx;
    let y = of.low * dy;
    let z = of.low * dz;
    let differ = (x ^ (of.high * dx)) | (y ^ (of.high * dy)) | (z ^ (of.high * dz));
    if differ >> of.shift != 0 {
        return None;
    }
    Some([
        toward(p[0], c[0], x >> of.shift),
        toward(p[1], c[1], y >> of.shift),
        toward(p[2], c[2], z >> of.shift),
    ])
}

/// The pull where its bounds do not decide it, as where a body meets itself.
#[cold]
#[inline(never)]
fn settled_pull(
    x: u32,
    y: u32,
    z: u32,
    at_x: u32,
    at_y: u32,
    at_z: u32,
    mass: u64,
    soft: u64,
) -> [i128; 3]
    requires x_in { x < 2 ^ fine_bits }
    requires y_in { y < 2 ^ fine_bits }
    requires z_in { z < 2 ^ fine_bits }
    requires at_x_in { at_x < 2 ^ fine_bits }
    requires at_y_in { at_y < 2 ^ fine_bits }
    requires at_z_in { at_z < 2 ^ fine_bits }
    requires mass_in { mass ≤ max_all_mass }
    requires above { 0 < soft }
    requires within { soft < 2 ^ 60 }
    ensures { result ≡ softened_pull soft (point x y z) (point at_x at_y at_z) mass }
{
    if x == at_x && y == at_y && z == at_z {
        return [0, 0, 0];
    }
    let hints = hint_pull(
        x.abs_diff(at_x),
        y.abs_diff(at_y),
        z.abs_diff(at_z),
        soft,
        mass,
    );
    pull_by(
        [x, y, z],
        [at_x, at_y, at_z],
        mass,
        divisor(soft, hints.root),
        hints,
    )
}

/// The pull at a softened squared distance.
#[inline(always)]
fn pull_at(p: [u32; 3], c: [u32; 3], mass: u64, soft: u64) -> [i128; 3]
    requires p_in { InCube p }
    requires c_in { InCube c }
    requires mass_in { mass ≤ max_all_mass }
    requires above { 0 < soft }
    requires within { soft < 2 ^ 60 }
    ensures { result ≡ softened_pull soft (point_at p) (point_at c) mass }
{
    match certain_pull(p, c, mass, soft) {
        Some(pull) => pull,
        None => settled_pull(p[0], p[1], p[2], c[0], c[1], c[2], mass, soft),
    }
}

/// The pull of a mass, where the softened squared distance is known.
#[tactic(auto, using(crate::proofs::Hints::on_far))]
#[inline(always)]
pub(crate) fn pull_softened(p: [u32; 3], c: [u32; 3], mass: u64, soft: u64, eps: Eps) -> [i128; 3]
    requires p_in { InCube p }
    requires c_in { InCube c }
    requires mass_in { mass ≤ max_all_mass }
    requires softened { soft ≡ kernel.soft2 eps (point_at p) (point_at c) }
    requires above { 0 < soft }
    requires within { soft < 2 ^ 60 }
    ensures value { result ≡ components (kernel.pull eps (point_at p) (point_at c) mass) }
    ensures within { IsPullBy mass result }
{
    let _at_least_one = eps.get();
    if mass < soft >> 40 {
        [0, 0, 0]
    } else {
        pull_at(p, c, mass, soft)
    }
}

/// The pull of a mass at `c` on a body at `p`, by gravity with Plummer softening: each component is
/// `mass * |c - p| * 2^50 / (r2 * s)`, rounded down in size, with the sign of `c - p`. Here `r2` is
/// the squared distance plus the square of `eps`, and `s` the root of `r2 * 2^20`, rounded down.
///
/// Places are in fine units, each coordinate below 2^29, the mass is at most 2^40, and the pull is
/// in units of 2^-40 of mass over squared fine distance. It is 0 for the mass 0 and for the place
/// itself. It takes no memory.
#[inline(always)]
pub fn pull(p: [u32; 3], c: [u32; 3], mass: u64, eps: Eps) -> [i128; 3]
    requires p_in { InCube p }
    requires c_in { InCube c }
    requires mass_in { mass ≤ max_all_mass }
    ensures value { result ≡ components (kernel.pull eps (point_at p) (point_at c) mass) }
    ensures within { IsPullBy mass result }
{
    pull_softened(p, c, mass, soft2(p, c, eps), eps)
}
