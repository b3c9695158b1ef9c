// Square roots: a guess that is tested, and Newton's where it fails.
ghost use Rattle.std.specs.Prelude.{◌≡◌, ◌≤◌, ◌<◌, ◌^◌};
ghost use Rattle.hot_model.specs.Kernel as kernel;
ghost use Rattle.hot_model.specs.Kernel.{IsRoot};

use crate::floats::hint_root;

/// The square root, rounded down, by Newton's steps: half the sum of a guess from above and what it
/// divides to.
#[tactic(auto, using(crate::proofs::Hints::on_root))]
#[inline(never)]
fn slow_root(n: u128) -> u128
    ensures root { IsRoot n result }
    ensures value { result ≡ kernel.root n }
    ensures within { result < 2 ^ 64 }
{
    if n == 0 {
        return 0;
    }
    let half = (n.ilog2() + 2) / 2;
    let mut guess = 1u128 << half;
    let mut other = n / guess;
    while other < guess {
        guess = (guess + other) / 2;
        other = n / guess;
    }
    guess
}

/// The square root, rounded down, where a hint may be it.
#[tactic(auto, using(crate::proofs::Hints::on_root))]
#[inline(always)]
pub(crate) fn root_by(n: u128, hint: u64) -> u128
    ensures root { IsRoot n result }
    ensures value { result ≡ kernel.root n }
    ensures within { result < 2 ^ 64 }
{
    let guess = u128::from(hint);
    let square = guess * guess;
    if square <= n && n - square <= 2 * guess {
        guess
    } else {
        slow_root(n)
    }
}

/// The square root, rounded down: the `g` with `g^2 <= n < (g + 1)^2`, for every `n`. It takes no
/// memory.
///
/// A guess by floats is tested by whole numbers; where it is wrong, Newton's steps from above find
/// the root.
pub fn root(n: u128) -> u128
    ensures root { IsRoot n result }
    ensures value { result ≡ kernel.root n }
    ensures within { result < 2 ^ 64 }
{
    let high = (n >> 64) as u64;
    let low = (n % (1 << 64)) as u64;
    root_by(n, hint_root(high, low))
}
