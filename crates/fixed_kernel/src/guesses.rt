// Guesses of quotients by a squared distance and by its root, all from one inverse root. Nothing is
// promised of a guess: who takes one tests it.
ghost use Rattle.std.specs.Prelude.{◌<◌, ◌^◌};

use crate::bounds::{high_half, room_for_fours, room_for_twos};
use crate::floats::hint_inverse_root;

/// The square of the inverse root times the number, over 2^128, if nothing were cut.
const ONE: u64 = 1 << 60;

/// What is added to the root of a number from 2^62, since its inverse is guessed too small.
const ROOT_RAISE: u64 = 64;

/// A power of two above each component of a direction, which is at most 2^20.
const HEADINGS: u64 = 1 << 21;

/// What suggests quotients by a squared distance: its root times 2^10, and with the distance times
/// 4^half as `m`, 2^94 over the root of `m` and 2^124 over `m`.
#[derive(Clone, Copy)]
pub struct Inverses {
    pub root: u64,
    inverse_root: u64,
    inverse: u64,
    half: u32,
}

/// What suggests the quotients of large numbers: a number without its last bits, times the inverse,
/// without the last bits of that.
#[derive(Clone, Copy)]
pub struct Guess {
    inverse: u64,
    cut: u32,
    shift: u32,
}

/// The inverses of a squared distance. That of the distance is made better by one step of Newton's.
#[inline(always)]
pub fn hint_inverses(n: u64) -> Inverses
    requires above { 0 < n }
{
    let half = room_for_fours(n);
    let full = n << (2 * half);
    let inverse_root = hint_inverse_root(full);
    let square = high_half(inverse_root, inverse_root);
    let short = ONE.wrapping_sub(high_half(square, full));
    Inverses {
        root: high_half(full, inverse_root).wrapping_add(ROOT_RAISE) >> (20 + half),
        inverse_root,
        inverse: square.wrapping_add((square >> 20).wrapping_mul(short) >> 40),
        half,
    }
}

/// The guess of a distance times 2^30 by the scaled root.
#[inline(always)]
pub fn guess_heading(of: Inverses, gap: u32) -> u64
    ensures within { result < 2 ^ 21 }
{
    let shift = 40u32.wrapping_sub(of.half) % 64;
    (high_half(u64::from(gap) << 30, of.inverse_root) >> shift) % HEADINGS
}

/// The guesses of numbers from which so many bits are cut.
#[inline(always)]
fn guess_of(of: Inverses, cut: u32) -> Guess {
    let cut = cut % 64;
    Guess {
        inverse: of.inverse,
        cut,
        shift: 60u32
            .wrapping_sub(cut)
            .wrapping_sub(of.half.wrapping_mul(2))
            % 64,
    }
}

/// The guesses of numbers up to the mass times the squared distance times 2^20.
#[inline(always)]
pub fn guess_by_mass(of: Inverses, mass: u64) -> Guess {
    let lead = room_for_twos(mass);
    guess_of(
        of,
        84u32.saturating_sub(of.half.wrapping_mul(2).wrapping_add(lead)),
    )
}

/// The guesses of quotients up to 2^50 by a distance from 2^8.
#[inline(always)]
pub fn guess_by_distance(of: Inverses) -> Guess {
    guess_of(of, 48u32.wrapping_sub(of.half.wrapping_mul(2)))
}

/// The guess of the quotient of a number.
#[inline(always)]
pub fn guess_quotient(of: Guess, size: u128) -> u64 {
    let top = (size >> (of.cut % 64)) % (1 << 64);
    high_half(top as u64, of.inverse) >> (of.shift % 64)
}
