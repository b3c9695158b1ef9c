//! What floats suggest for the whole numbers of the kernel. Nothing is promised of a hint: who
//! takes one tests it.
ghost use Rattle.std.specs.Prelude.{◌<◌, ◌≤◌, ◌^◌};
ghost use Rattle.hot_units.specs.Limits.{max_all_mass};

use std::num::nearest_u64_to_f64;

/// The bits of 2^52, whose last 52 bits are those of a number added to it.
const BITS_OF_TWO_52: u64 = 0x4330_0000_0000_0000;

/// The bits of 2^84, whose last 32 bits are those of a number, times 2^32, added to it.
const BITS_OF_TWO_84: u64 = 0x4530_0000_0000_0000;

const TWO_32: u64 = 1 << 32;

const TWO_51: u64 = 1 << 51;

const FLOAT_TWO_52: f64 = 4503599627370496.0;

const FLOAT_TWO_53: f64 = 9007199254740992.0;

const FLOAT_TWO_64: f64 = 18446744073709551616.0;

/// 2^84 + 2^52.
const FLOAT_HALVES: f64 = 19342813118337666422669312.0;

/// 3 * 2^51, on which a whole number of at most 2^51 stands in the last bits.
const FLOAT_RAISE: f64 = 6755399441055744.0;

/// The hints for one pull.
#[derive(Clone, Copy)]
pub struct PullHints {
    pub root: u64,
    pub x: u64,
    pub y: u64,
    pub z: u64,
}

/// A number below 2^52, by the bits of its sum with 2^52. No conversion waits for an older value of
/// its register.
#[tactic(auto, using(crate::proofs::Bits::on_bits))]
#[inline(always)]
fn float(n: u64) -> f64
    requires { n < 2 ^ 52 }
{
    f64::from_bits(BITS_OF_TWO_52 + n) - FLOAT_TWO_52
}

/// A number below 2^64, by the bits of its halves.
#[tactic(auto, using(crate::proofs::Bits::on_bits))]
#[inline(always)]
fn wide(n: u64) -> f64 {
    let high = f64::from_bits(BITS_OF_TWO_84 + (n >> 32)) - FLOAT_HALVES;
    high + f64::from_bits(BITS_OF_TWO_52 + n % TWO_32)
}

/// A float of at most 2^51 without its fraction, on top of 3 * 2^51, where its last bits are those
/// of the whole number.
#[inline(always)]
fn raised(x: f64) -> f64 {
    (x - 0.5) + FLOAT_RAISE
}

/// The whole number of a raised float.
#[inline(always)]
fn lowered(x: f64) -> u64 {
    if x < FLOAT_TWO_53 {
        x.to_bits() % TWO_51
    } else {
        0
    }
}

/// The hint for the root of a number below 2^102.
#[inline(always)]
pub fn hint_root(high: u64, low: u64) -> u64 {
    lowered(raised(
        (nearest_u64_to_f64(high) * FLOAT_TWO_64 + nearest_u64_to_f64(low)).sqrt()
            * 1.0000000000000004,
    ))
}

/// The hint for 2^94 over the root of a number from 2^62. The factor is a little too small, since a
/// hint that is too large is not taken. A number of at most 2^51 stands in the last bits of its sum
/// with 2^52.
#[inline(always)]
pub fn hint_inverse_root(n: u64) -> u64 {
    let raised = 106854955625126008193024.0 / ((n >> 11) as f64).sqrt() + FLOAT_TWO_52;
    if raised < FLOAT_TWO_53 {
        raised.to_bits() << 12
    } else {
        0
    }
}

/// The hints for the pull of a mass. The factors are a little too large, since a quotient that is
/// whole is not to be missed.
#[inline(always)]
pub fn hint_pull(x: u32, y: u32, z: u32, soft: u64, mass: u64) -> PullHints
    requires { mass ≤ max_all_mass }
{
    let r2 = wide(soft);
    let root = raised(r2.sqrt() * 1024.0000000000009);
    let scale = float(mass) * 1125899906842625.0 / (r2 * (root - FLOAT_RAISE));
    let x = raised(float(u64::from(x)) * scale);
    let y = raised(float(u64::from(y)) * scale);
    let z = raised(float(u64::from(z)) * scale);
    if root < FLOAT_TWO_53 && x < FLOAT_TWO_53 && y < FLOAT_TWO_53 && z < FLOAT_TWO_53 {
        PullHints {
            root: root.to_bits() % TWO_51,
            x: x.to_bits() % TWO_51,
            y: y.to_bits() % TWO_51,
            z: z.to_bits() % TWO_51,
        }
    } else {
        PullHints {
            root: 0,
            x: 0,
            y: 0,
            z: 0,
        }
    }
}
