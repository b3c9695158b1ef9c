// The pull of a cell's second moments.
ghost use Rattle.std.specs.Prelude.{◌≡◌, ◌≤◌, ◌<◌, ◌^◌, ◌*◌, ◌*ℤ◌, pos, nat_abs};
ghost use Rattle.hot_units.specs.Limits.{fine_bits};
ghost use Rattle.hot_units.specs.Values.{point_at, vector_at, components, coordinates};
ghost use Rattle.hot_units.specs.Keys.{IsCell, side, extent};
ghost use Rattle.hot_model.specs.Kernel as kernel;
ghost use Rattle.hot_model.specs.Kernel.{InCube};
ghost use Rattle.hot_model.specs.Second as second;
ghost use Rattle.hot_model.specs.Second.{IsSmall, most_heading, most_quad};
ghost use Rattle.fixed_kernel.specs.Softened.{softened_heading};

use crate::distance::{distance2, softened};
use crate::guesses::{
    Guess, Inverses, guess_by_distance, guess_by_mass, guess_heading, hint_inverses,
};
use crate::products::{dot3, less, scaled, spread, times, traceless, trunc};
use crate::pulls::toward;
use crate::quotients::{short_quotient, trunc_by};
use crate::roots::root_by;
use crate::{Eps, centre};
use hot_model::CellRec;
use hot_units::level;
use hot_units::limits::FINE_BITS;

/// The square of the side of a cell.
#[tactic(auto, using(crate::proofs::Hints::on_side))]
fn squared_side(key: u64) -> u64
    requires cell { IsCell key }
    ensures value { result ≡ kernel.square (side key) }
{
    let side = 1u64 << (FINE_BITS - level(key));
    side * side
}

/// One component of the direction, in units of 2^-20, by the scaled root of the squared distance.
#[tactic(auto, using(crate::proofs::Hints::on_heading), unfolding(hot_model::specs::Second::heading_along),)]
#[inline(always)]
fn heading_along(p: u32, c: u32, s: u64, of: Inverses) -> i128
    requires p_in { p < 2 ^ fine_bits }
    requires c_in { c < 2 ^ fine_bits }
    requires above { 0 < s }
    requires within { s < 2 ^ 42 }
    requires near { 1024 * kernel.apart p c ≤ s }
    ensures value { result ≡ second.heading_along p c s }
{
    let gap = p.abs_diff(c);
    toward(
        p,
        c,
        short_quotient(u64::from(gap) * (1 << 30), s, guess_heading(of, gap)),
    )
}

/// The direction from a place to another, in units of 2^-20.
#[tactic(auto, unfolding(hot_model::specs::Second::heading))]
#[inline(always)]
fn heading(p: [u32; 3], c: [u32; 3], s: u64, of: Inverses) -> [i128; 3]
    requires p_in { InCube p }
    requires c_in { InCube c }
    requires above { 0 < s }
    requires within { s < 2 ^ 42 }
    requires x_near { 1024 * kernel.apart (point_at p).x (point_at c).x ≤ s }
    requires y_near { 1024 * kernel.apart (point_at p).y (point_at c).y ≤ s }
    requires z_near { 1024 * kernel.apart (point_at p).z (point_at c).z ≤ s }
    ensures value { result ≡ components (second.heading s (point_at p) (point_at c)) }
{
    [
        heading_along(p[0], c[0], s, of),
        heading_along(p[1], c[1], s, of),
        heading_along(p[2], c[2], s, of),
    ]
}

/// The direction from a place to another, in units of 2^-20, by the softened squared distance.
#[inline(always)]
fn direction(p: [u32; 3], c: [u32; 3], r2: u64, of: Inverses) -> [i128; 3]
    requires p_in { InCube p }
    requires c_in { InCube c }
    requires above { 0 < r2 }
    requires beyond { kernel.distance2 (point_at p) (point_at c) ≤ r2 }
    requires within { r2 < 2 ^ 60 }
    ensures value { result ≡ softened_heading r2 (point_at p) (point_at c) }
{
    let s = root_by(u128::from(r2) * (1 << 20), of.root) as u64;
    heading(p, c, s, of)
}

/// Five times the part along the direction, times a component of the direction.
#[inline(always)]
fn fivefold(g: i128, n: i128) -> i128
    requires g_in { nat_abs g ≤ 2 ^ 86 }
    requires n_in { nat_abs n ≤ most_heading }
    ensures value { result ≡ second.trunc (pos 5 *ℤ g *ℤ n) (2 ^ 21) }
    ensures within { nat_abs result ≤ 2 ^ 88 }
{
    trunc(5 * g * n, 1 << 21)
}

/// The part of the turned vector along the direction.
#[tactic(auto, unfolding(hot_model::specs::Second::part_along))]
#[inline(always)]
fn part_along(t: [i128; 3], n: [i128; 3]) -> i128
    requires n_in { IsSmall most_heading (vector_at n) }
    requires t_in { IsSmall (2 ^ 84) (vector_at t) }
    ensures value { result ≡ second.part_along (vector_at t) (vector_at n) }
    ensures within { nat_abs result ≤ 2 ^ 86 }
{
    trunc(dot3(t[0], t[1], t[2], n), 1 << 20)
}

/// One component: five times the part along the direction, less the turned one, by the softened
/// squared distance.
#[tactic(auto, unfolding(hot_model::specs::Second::bent_along))]
#[inline(always)]
fn bent_along(r2: u64, of: Guess, g: i128, n: i128, t: i128) -> i128
    requires above { 0 < r2 }
    requires g_in { nat_abs g ≤ 2 ^ 86 }
    requires n_in { nat_abs n ≤ most_heading }
    requires t_in { nat_abs t ≤ 2 ^ 84 }
    ensures value { result ≡ second.bent_along r2 g n t }
{
    trunc_by(less(fivefold(g, n), t), r2, of)
}

/// The pull of the second moments, by the direction and the vector that they turn it to.
#[tactic(auto, unfolding(hot_model::specs::Second::bent))]
#[inline(always)]
fn bent(r2: u64, of: Guess, n: [i128; 3], t: [i128; 3]) -> [i128; 3]
    requires above { 0 < r2 }
    requires n_in { IsSmall most_heading (vector_at n) }
    requires t_in { IsSmall (2 ^ 84) (vector_at t) }
    ensures value { result ≡ components (second.bent r2 (vector_at n) (vector_at t)) }
{
    let g = part_along(t, n);
    [
        bent_along(r2, of, g, n[0], t[0]),
        bent_along(r2, of, g, n[1], t[1]),
        bent_along(r2, of, g, n[2], t[2]),
    ]
}

/// The pull of the second moments by the softened squared distance and the direction, of a cell
/// that is not empty.
#[inline(always)]
fn quad_over(r2: u64, of: Inverses, n: [i128; 3], c: &CellRec) -> [i128; 3]
    requires not_empty { 0 < c.now.count }
    requires beyond { extent c.now.key * extent c.now.key ≤ r2 }
    requires far { 2 ^ 16 ≤ r2 }
    requires n_in { IsSmall most_heading (vector_at n) }
    ensures value { result ≡ components (second.quad_over r2 (vector_at n) c.now) }
{
    let by_mass = guess_by_mass(of, c.mass);
    let by_distance = guess_by_distance(of);
    bent(
        r2,
        by_distance,
        n,
        times(scaled(r2, by_mass, traceless(spread(c))), n),
    )
}

/// The pull of a cell's second moments, where its centre and the squared distance are known. It is
/// inlined, so that a loop over bodies makes once what depends on the cell alone.
#[inline(always)]
pub(crate) fn quad_softened(
    p: [u32; 3],
    at: [u32; 3],
    c: &CellRec,
    apart: u64,
    r2: u64,
    eps: Eps,
) -> [i128; 3]
    requires p_in { InCube p }
    requires at_in { InCube at }
    requires not_empty { 0 < c.now.count }
    requires centred { at ≡ coordinates (kernel.centre c.now) }
    requires apart_is { apart ≡ kernel.distance2 (point_at p) (point_at at) }
    requires softened { r2 ≡ kernel.soft2 eps (point_at p) (point_at at) }
    requires above { 0 < r2 }
    requires within { r2 < 2 ^ 60 }
    ensures value { result ≡ components (second.quad eps (point_at p) c.now) }
    ensures within { IsSmall (most_quad c.now.mass) (vector_at result) }
{
    let _at_least_one = eps.get();
    if apart <= squared_side(c.key) {
        return [0, 0, 0];
    }
    let of = hint_inverses(r2);
    quad_over(r2, of, direction(p, at, r2, of), c)
}

/// The pull of a cell's second moments about its centre of mass on a body at `p`: the quadrupole of
/// the cell, in whole numbers, with each quotient cut towards 0. The cell is not empty.
///
/// It is 0 unless the centre is farther off than the side of the cell. Places are in fine units,
/// each coordinate below 2^29, and the pull is in units of 2^-40 of mass over squared fine
/// distance. It takes no memory.
#[tactic(auto, using(crate::proofs::Hints::on_soft))]
pub fn quad(p: [u32; 3], c: &CellRec, eps: Eps) -> [i128; 3]
    requires p_in { InCube p }
    requires not_empty { 0 < c.now.count }
    ensures value { result ≡ components (second.quad eps (point_at p) c.now) }
    ensures within { IsSmall (most_quad c.now.mass) (vector_at result) }
{
    let at = centre(c);
    let apart = distance2(p, at);
    quad_softened(p, at, c, apart, softened(apart, eps), eps)
}
