// The six numbers of a symmetric table, and the steps from a cell's second sums to its quadrupole.
ghost use Rattle.std.specs.Prelude.{◌≡◌, ◌≤◌, ◌<◌, ◌^◌, ◌*◌, ◌/◌, ◌+◌, ◌-◌};
ghost use Rattle.std.specs.Prelude.{◌+ℤ◌, ◌-ℤ◌, ◌*ℤ◌, pos, nat_abs};
ghost use Rattle.hot_units.specs.Limits.{fine_bits, max_all_mass};
ghost use Rattle.hot_units.specs.Values.{vector_at, components};
ghost use Rattle.hot_model.specs.Second as second;
ghost use Rattle.hot_model.specs.Second.{AreSmall, IsSmall, most_heading};

use crate::centre;
use crate::guesses::Guess;
use crate::quotients::trunc_by;
use hot_model::CellRec;
use std::marker::Model;

/// A number for each two axes, in whatever order.
#[derive(Clone, Copy)]
pub struct Products {
    xx: i128,
    yy: i128,
    zz: i128,
    xy: i128,
    xz: i128,
    yz: i128,
}

impl Model for Products {
    ghost use Rattle.hot_units.specs.Values as values;
    ghost use Rattle.fixed_kernel.specs.Tables.{products_of};

    ghost Value = { values.Products };

    ghost view = { λ p. products_of p.xx p.yy p.zz p.xy p.xz p.yz };

    ghost inverse = { λ v. record {
      xx = v.xx;
      yy = v.yy;
      zz = v.zz;
      xy = v.xy;
      xz = v.xz;
      yz = v.yz;
    } };
}

/// The quotient without its fraction.
#[inline]
pub fn trunc(a: i128, n: u64) -> i128
    requires above { 0 < n }
    ensures value { result ≡ second.trunc a n }
{
    a / i128::from(n)
}

/// The difference of two numbers below 2^100.
#[inline]
fn difference(more: u128, less: u128) -> i128
    requires more_in { more < 2 ^ 100 }
    requires less_in { less < 2 ^ 100 }
    ensures value { result ≡ pos more -ℤ pos less }
{
    more as i128 - less as i128
}

/// What a sum of mass times a coordinate is more than the mass times its centre.
#[tactic(auto, using(crate::proofs::Hints::on_rest))]
#[inline(always)]
fn rest_of(mass: u64, c: u32, s: u128) -> u64
    requires some { 0 < mass }
    requires centred { c ≡ s / mass }
    ensures value { s ≡ mass * c + result }
    ensures within { result < mass }
{
    (s - u128::from(mass) * u128::from(c)) as u64
}

/// The sum of mass times two offsets from the centre, by what its sum for one axis is more than at
/// the centre.
#[tactic(auto, using(crate::proofs::Hints::on_spread), unfolding(hot_model::specs::Second::spread_along),)]
#[inline(always)]
fn spread_along(mass: u64, c: u32, d: u32, s: u128, t: u128, q: u128) -> i128
    requires mass_in { mass ≤ max_all_mass }
    requires some { 0 < mass }
    requires centred { c ≡ s / mass }
    requires d_in { d < 2 ^ fine_bits }
    requires c_in { c < 2 ^ fine_bits }
    requires t_in { t ≤ 2 ^ 69 }
    requires q_in { q ≤ 2 ^ 98 }
    ensures value { result ≡ second.spread_along mass c d s t q }
{
    let rest = rest_of(mass, c, s);
    difference(q, u128::from(c) * t + u128::from(d) * u128::from(rest))
}

/// The sums of mass times two offsets from the centre, for each two axes, of a cell that is not
/// empty.
#[inline(always)]
pub fn spread(c: &CellRec) -> Products
    requires not_empty { 0 < c.now.count }
    ensures value { result ≡ second.spread c.now }
{
    let [x, y, z] = centre(c);
    Products {
        xx: spread_along(c.mass, x, x, c.sx, c.sx, c.sxx),
        yy: spread_along(c.mass, y, y, c.sy, c.sy, c.syy),
        zz: spread_along(c.mass, z, z, c.sz, c.sz, c.szz),
        xy: spread_along(c.mass, x, y, c.sx, c.sy, c.sxy),
        xz: spread_along(c.mass, x, z, c.sx, c.sz, c.sxz),
        yz: spread_along(c.mass, y, z, c.sy, c.sz, c.syz),
    }
}

/// Three times a number.
#[inline]
fn triple(a: i128) -> i128
    requires small { nat_abs a ≤ 2 ^ 98 }
    ensures value { result ≡ pos 3 *ℤ a }
    ensures within { nat_abs result ≤ 3 * 2 ^ 98 }
{
    3 * a
}

/// One number less another.
#[inline]
pub fn less(a: i128, by: i128) -> i128
    requires a_in { nat_abs a ≤ 2 ^ 104 }
    requires by_in { nat_abs by ≤ 2 ^ 104 }
    ensures value { result ≡ a -ℤ by }
    ensures within { nat_abs result ≤ 2 ^ 105 }
{
    a - by
}

/// Three times a number of the diagonal, less the trace.
#[tactic(auto, unfolding(hot_model::specs::Second::diagonal))]
#[inline(always)]
fn diagonal(p: Products, a: i128) -> i128
    requires small { AreSmall (2 ^ 98) p }
    requires a_in { nat_abs a ≤ 2 ^ 98 }
    ensures value { result ≡ second.diagonal p a }
{
    less(triple(a), sum3(p.xx, p.yy, p.zz))
}

/// Three times each number, less the trace on the diagonal.
#[tactic(auto, unfolding(hot_model::specs::Second::traceless))]
#[inline(always)]
pub fn traceless(p: Products) -> Products
    requires small { AreSmall (2 ^ 98) p }
    ensures value { result ≡ second.traceless p }
{
    let xx = p.xx;
    let yy = p.yy;
    let zz = p.zz;
    Products {
        xx: diagonal(p, xx),
        yy: diagonal(p, yy),
        zz: diagonal(p, zz),
        xy: triple(p.xy),
        xz: triple(p.xz),
        yz: triple(p.yz),
    }
}

/// A number times 2^20 by the softened squared distance.
#[tactic(auto, unfolding(hot_model::specs::Second::scaled_along))]
#[inline(always)]
fn scaled_along(r2: u64, of: Guess, t: i128) -> i128
    requires small { nat_abs t ≤ 2 ^ 100 }
    requires above { 0 < r2 }
    ensures value { result ≡ second.scaled_along r2 t }
{
    trunc_by(t * (1 << 20), r2, of)
}

/// Each of the numbers times 2^20 by the softened squared distance.
#[tactic(auto, unfolding(hot_model::specs::Second::scaled))]
#[inline(always)]
pub fn scaled(r2: u64, of: Guess, t: Products) -> Products
    requires small { AreSmall (2 ^ 100) t }
    requires above { 0 < r2 }
    ensures value { result ≡ second.scaled r2 t }
{
    Products {
        xx: scaled_along(r2, of, t.xx),
        yy: scaled_along(r2, of, t.yy),
        zz: scaled_along(r2, of, t.zz),
        xy: scaled_along(r2, of, t.xy),
        xz: scaled_along(r2, of, t.xz),
        yz: scaled_along(r2, of, t.yz),
    }
}

/// A number below 2^63 times a component of a direction, in one multiplication.
#[inline(always)]
fn short_product(a: i128, n: i128) -> i128
    requires a_in { nat_abs a ≤ 2 ^ 62 }
    requires n_in { nat_abs n ≤ most_heading }
    ensures value { result ≡ a *ℤ n }
    ensures within { nat_abs result ≤ 2 ^ 82 }
{
    i128::from(a as i64) * i128::from(n as i64)
}

/// A number times a component of a direction.
#[inline(always)]
fn product(a: i128, n: i128) -> i128
    requires a_in { nat_abs a ≤ 2 ^ 84 }
    requires n_in { nat_abs n ≤ most_heading }
    ensures value { result ≡ a *ℤ n }
    ensures within { nat_abs result ≤ 2 ^ 104 }
{
    a * n
}

/// The sum of three numbers.
#[inline]
fn sum3(a: i128, b: i128, c: i128) -> i128
    requires a_in { nat_abs a ≤ 2 ^ 104 }
    requires b_in { nat_abs b ≤ 2 ^ 104 }
    requires c_in { nat_abs c ≤ 2 ^ 104 }
    ensures value { result ≡ a +ℤ b +ℤ c }
    ensures within { nat_abs result ≤ 3 * 2 ^ 104 }
{
    a + b + c
}

/// The sum of the products of three numbers with three.
#[tactic(auto, unfolding(hot_model::specs::Second::dot3))]
#[inline(always)]
pub fn dot3(a: i128, b: i128, c: i128, n: [i128; 3]) -> i128
    requires a_in { nat_abs a ≤ 2 ^ 84 }
    requires b_in { nat_abs b ≤ 2 ^ 84 }
    requires c_in { nat_abs c ≤ 2 ^ 84 }
    requires n_in { IsSmall most_heading (vector_at n) }
    ensures value { result ≡ second.dot3 a b c (vector_at n) }
    ensures within { nat_abs result ≤ 3 * 2 ^ 104 }
{
    sum3(product(a, n[0]), product(b, n[1]), product(c, n[2]))
}

/// The sum of the products of three numbers below 2^63 with three.
#[tactic(auto, unfolding(hot_model::specs::Second::dot3))]
#[inline(always)]
fn short_dot3(a: i128, b: i128, c: i128, n: [i128; 3]) -> i128
    requires a_in { nat_abs a ≤ 2 ^ 62 }
    requires b_in { nat_abs b ≤ 2 ^ 62 }
    requires c_in { nat_abs c ≤ 2 ^ 62 }
    requires n_in { IsSmall most_heading (vector_at n) }
    ensures value { result ≡ second.dot3 a b c (vector_at n) }
{
    sum3(
        short_product(a, n[0]),
        short_product(b, n[1]),
        short_product(c, n[2]),
    )
}

/// Symmetric numbers times a direction.
#[tactic(auto, unfolding(hot_model::specs::Second::times))]
#[inline(always)]
pub fn times(q: Products, n: [i128; 3]) -> [i128; 3]
    requires small { AreSmall (2 ^ 62) q }
    requires n_in { IsSmall most_heading (vector_at n) }
    ensures value { result ≡ components (second.times q (vector_at n)) }
{
    [
        short_dot3(q.xx, q.xy, q.xz, n),
        short_dot3(q.xy, q.yy, q.yz, n),
        short_dot3(q.xz, q.yz, q.zz, n),
    ]
}
