// Quotients: a guess that is tested, and a division where it fails.
ghost use Rattle.std.specs.Prelude.{◌≡◌, ◌/◌, ◌≤◌, ◌<◌, ◌^◌, ◌*◌, nat_abs};
ghost use Rattle.hot_model.specs.Second as second;

use crate::guesses::{Guess, guess_quotient};

/// The quotient by a division.
#[cold]
#[inline(never)]
fn divided(size: u128, by: u64) -> u128
    requires above { 0 < by }
    ensures value { result ≡ size / by }
{
    size / u128::from(by)
}

/// The quotient, where a hint may be it.
#[tactic(auto, using(crate::proofs::Hints::on_hint))]
#[inline(always)]
fn quotient(size: u128, by: u64, hint: u64) -> u128
    requires above { 0 < by }
    ensures value { result ≡ size / by }
{
    let whole = u128::from(hint) * u128::from(by);
    if whole <= size && size - whole < u128::from(by) {
        u128::from(hint)
    } else {
        divided(size, by)
    }
}

/// The quotient of small numbers by a division.
#[cold]
#[inline(never)]
fn divided_short(size: u64, by: u64) -> u64
    requires above { 0 < by }
    ensures value { result ≡ size / by }
{
    size / by
}

/// The quotient of small numbers, where a hint may be it.
#[tactic(auto, using(crate::proofs::Hints::on_hint))]
#[inline(always)]
pub fn short_quotient(size: u64, by: u64, hint: u64) -> u64
    requires above { 0 < by }
    requires by_in { by < 2 ^ 42 }
    requires hint_in { hint < 2 ^ 21 }
    ensures value { result ≡ size / by }
{
    let whole = hint * by;
    if whole <= size && size - whole < by {
        hint
    } else {
        divided_short(size, by)
    }
}

/// The quotient without its fraction.
#[tactic(auto, using(crate::proofs::Hints::on_trunc))]
#[inline(always)]
pub fn trunc_by(a: i128, n: u64, of: Guess) -> i128
    requires above { 0 < n }
    requires small { nat_abs a ≤ 2 ^ 120 }
    ensures value { result ≡ second.trunc a n }
{
    let size = a.unsigned_abs();
    let whole = quotient(size, n, guess_quotient(of, size)) as i128;
    if a < 0 { -whole } else { whole }
}
