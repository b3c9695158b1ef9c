// Bounds of a pull: two whole numbers that it lies between, by a hint of an inverse root that is
// tested by products.
ghost use Rattle.std.specs.Prelude.{IfSome, ◌≡◌, ◌/◌, ◌≤◌, ◌<◌, ◌^◌, ◌*◌};
ghost use Rattle.fixed_kernel.specs.Between.{IsBetween};
ghost use Rattle.fixed_kernel.specs.Softened.{divisor_of};

use crate::floats::hint_inverse_root;

/// A hint is taken where its square times the number, over 2^128, is from this..
const LEAST: u64 = (1 << 60) - 16386;

/// ..to this.
const MOST: u64 = (1 << 60) - 2;

/// What the pull over a distance of 1 is at least and at most, both times a power of two.
#[derive(Clone, Copy)]
pub struct Bounds {
    pub low: u64,
    pub high: u64,
    pub shift: u32,
}

/// The high half of a product.
#[tactic(auto, using(crate::proofs::Hints::on_product))]
#[inline(always)]
pub fn high_half(a: u64, b: u64) -> u64
    ensures { result ≡ a * b / 2 ^ 64 }
{
    ((u128::from(a) * u128::from(b)) >> 64) as u64
}

/// How often a number may be made four times as large.
#[tactic(auto, using(crate::proofs::Certain::on_room))]
#[inline(always)]
pub fn room_for_fours(n: u64) -> u32
    requires { 0 < n }
    ensures above { 2 ^ 62 ≤ n * 2 ^ (2 * result) }
    ensures fits { n * 2 ^ (2 * result) < 2 ^ 64 }
    ensures within { result < 32 }
{
    (63 - n.ilog2()) / 2
}

/// How often a number may be doubled.
#[tactic(auto, using(crate::proofs::Certain::on_room))]
#[inline(always)]
pub fn room_for_twos(n: u64) -> u32
    ensures fits { n * 2 ^ result < 2 ^ 64 }
    ensures within { result < 64 }
{
    63 - (n | 1).ilog2()
}

/// The bounds of the pull by a mass. None where the hint is not good enough, or the pull too large
/// or too small for them.
#[inline(always)]
pub fn bound_pull(soft: u64, mass: u64) -> Option<Bounds>
    requires above { 0 < soft }
    ensures { IfSome result (λ b. IsBetween b.low b.high b.shift mass (divisor_of soft)) }
{
    let half = room_for_fours(soft);
    let lead = room_for_twos(mass);
    let shift = (lead + 23).wrapping_sub(3 * half);
    let full = soft << (2 * half);
    let hint = hint_inverse_root(full);
    let square = high_half(hint, hint);
    let near = high_half(square, full);
    if near < LEAST || near > MOST || shift == 0 || shift > 63 {
        return None;
    }
    let low = high_half(mass << lead, high_half(square, hint)) >> 27;
    let spare = (low << half) >> 40;
    Some(Bounds {
        low,
        high: low + spare + 2,
        shift,
    })
}
