//! The tests of a record's numbers. The sums are tested before the products, and the products' size
//! before the facts that every record keeps, so that nothing overflows on whatever bytes.
ghost use Rattle.std.specs.Prelude.{◌≡◌, ◌+◌, ◌<◌, ◌≤◌, ◌^◌, ◌-◌, true};
ghost use Rattle.hot_units.specs.Limits.{max_all_mass};
ghost use Rattle.hot_units.specs.Keys as keys;
ghost use Rattle.cell_mail.specs.Reading as reading;

use crate::limits::{SUMS, is_cell};
use hot_units::level;
use hot_units::limits::{FINE_BITS, MAX_ALL_MASS, MAX_BODIES};
use morton_key::corner;

/// A product sum from here on is past every mass times two coordinates.
const PRODUCT_END: u128 = 1 << 101;

/// How far a place in a cell is from the corner at most.
#[tactic(auto, using(crate::proofs::Hints::on_extents))]
fn extent(cell: u64) -> u32
    requires { keys.IsCell cell }
    ensures value { result ≡ keys.extent cell }
    ensures within { result < 2 ^ 29 }
{
    (1u32 << (FINE_BITS - level(cell))) - 1
}

/// Whether a sum may be one of mass times a coordinate from `k` to `k + w`.
#[tactic(auto, using(crate::proofs::Hints::on_sums))]
fn is_first(mass: u64, k: u32, w: u32, s: u128) -> bool
    requires light { mass ≤ max_all_mass }
    requires k_in { k < 2 ^ 29 }
    requires w_in { w < 2 ^ 29 }
    ensures value { result ≡ reading.is_first mass k w s }
{
    let mass = u128::from(mass);
    mass * u128::from(k) <= s && s <= mass * (u128::from(k) + u128::from(w))
}

/// Whether a sum may be one of mass times two coordinates, from `k` and from `l` on, whose own sums
/// are `s` and `t`.
#[tactic(auto, using(crate::proofs::Hints::on_sums), unfolding(crate::specs::Reading::is_second))]
fn is_second(mass: u64, k: u32, l: u32, w: u32, s: u128, t: u128, q: u128) -> bool
    requires light { mass ≤ max_all_mass }
    requires k_in { k < 2 ^ 29 }
    requires l_in { l < 2 ^ 29 }
    requires w_in { w < 2 ^ 29 }
    requires s_in { s ≤ 2 ^ 70 }
    requires t_in { t ≤ 2 ^ 70 }
    ensures value { result ≡ reading.is_second mass k l w s t q }
{
    if q >= PRODUCT_END {
        return false;
    }
    let mass = u128::from(mass);
    let k = u128::from(k);
    let l = u128::from(l);
    let w = u128::from(w);
    let low = k * t + l * s;
    let whole = q + mass * (k * l);
    low <= whole && whole <= low + mass * (w * w)
}

/// Whether the first three sums may be those of bodies in the cell.
#[tactic(auto, unfolding(crate::specs::Reading::firsts_fit))]
fn firsts_fit(key: u64, mass: u64, s: [u128; SUMS]) -> bool
    requires cell { keys.IsCell key }
    requires light { mass ≤ max_all_mass }
    ensures value { result ≡ reading.firsts_fit key mass s }
{
    let [x, y, z] = corner(key);
    let w = extent(key);
    is_first(mass, x, w, s[0]) && is_first(mass, y, w, s[1]) && is_first(mass, z, w, s[2])
}

/// Whether the other six sums may be those of bodies in the cell, where the first three may be.
#[tactic(auto, using(crate::proofs::Hints::on_firsts), unfolding(crate::specs::Reading::seconds_fit),)]
fn seconds_fit(key: u64, mass: u64, s: [u128; SUMS]) -> bool
    requires cell { keys.IsCell key }
    requires light { mass ≤ max_all_mass }
    requires firsts { reading.firsts_fit key mass s ≡ true }
    ensures value { result ≡ reading.seconds_fit key mass s }
{
    let [x, y, z] = corner(key);
    let w = extent(key);
    is_second(mass, x, x, w, s[0], s[0], s[3])
        && is_second(mass, y, y, w, s[1], s[1], s[4])
        && is_second(mass, z, z, w, s[2], s[2], s[5])
        && is_second(mass, x, y, w, s[0], s[1], s[6])
        && is_second(mass, x, z, w, s[0], s[2], s[7])
        && is_second(mass, y, z, w, s[1], s[2], s[8])
}

/// Whether these are the numbers of a record that may be sent.
#[tactic(auto, using(crate::proofs::Hints::on_cells), unfolding(crate::specs::Reading::is_record))]
pub(crate) fn is_record(key: u64, count: u32, mass: u64, s: [u128; SUMS]) -> bool
    ensures value { result ≡ reading.is_record (reading.with_sums key count mass s) }
{
    if !is_cell(key) || count < 1 || count > MAX_BODIES {
        return false;
    }
    if mass < u64::from(count) || mass > MAX_ALL_MASS {
        return false;
    }
    firsts_fit(key, mass, s) && seconds_fit(key, mass, s)
}
