ghost use Rattle.std.specs.Prelude.{◌≡◌, ◌<◌, ◌≤◌, ◌+◌, ◌^◌, pos, true, false, nat_abs, IfSome, IfOk};
ghost use Rattle.std.specs.Prelude.{MatchOption};
ghost use Rattle.hot_units.specs.Limits.{fine_bits, max_all_mass};
ghost use Rattle.hot_units.specs.Bodies.{IsBody};
ghost use Rattle.body_set.specs.Rows as rows;

use crate::PushError;
use hot_units::limits::{FINE_BITS, MAX_ALL_MASS, MAX_BODIES, MAX_BODY_MASS, MAX_WORK};
use hot_units::{Axis, Body, Cube, RawRow, body_of};

/// A coordinate of the file in fine units; None exactly outside the cube. The distance from the
/// corner is taken without a sign, so it is exact for every 128-bit number.
fn fine(bits: u32, corner: i128, at: i128) -> Option<u32>
    requires low { 1 ≤ bits }
    requires high { bits ≤ fine_bits }
    ensures inside { MatchOption result (rows.is_inside bits corner at ≡ false)
        (λ n. (rows.is_inside bits corner at ≡ true) × (n ≡ rows.fine bits corner at)) }
    ensures within { IfSome result (λ n. n < 2 ^ fine_bits) }
{
    if at < corner {
        return None;
    }
    let above = at.abs_diff(corner);
    if above < 1 << bits {
        Some((above as u32) << (FINE_BITS - bits))
    } else {
        None
    }
}

/// A number of the file from `first` to `last`; None exactly for any other.
fn in_range(first: u32, last: u32, n: i128) -> Option<u32>
    ensures between { MatchOption result (rows.is_between (pos first) (pos last) n ≡ false)
        (λ k. (rows.is_between (pos first) (pos last) n ≡ true) × (k ≡ nat_abs n)) }
    ensures within { IfSome result (λ k. (first ≤ k) × (k ≤ last)) }
{
    if i128::from(first) <= n && n <= i128::from(last) {
        Some(n as u32)
    } else {
        None
    }
}

/// The body and the work weight that row number `row` gives, where the rows before have the mass
/// `before`; or the first fault that it has.
pub fn read_row(cube: Cube, row: u32, before: u64, raw: &RawRow) -> Result<(Body, u32), PushError>
    requires light { before ≤ max_all_mass }
    ensures answer { MatchOption (rows.first_after cube row before raw.now)
        (result ≡ Ok (rows.body_of_row cube row raw.now, rows.weight_of_row raw.now))
        (λ f. result ≡ Err f) }
    ensures body { IfOk result (λ p. IsBody p.0) }
{
    if row >= MAX_BODIES {
        return Err(PushError::TooMany);
    }
    let Some(x) = fine(cube.bits, cube.x0, raw.x) else {
        return Err(PushError::Outside { row, axis: Axis::X });
    };
    let Some(y) = fine(cube.bits, cube.y0, raw.y) else {
        return Err(PushError::Outside { row, axis: Axis::Y });
    };
    let Some(z) = fine(cube.bits, cube.z0, raw.z) else {
        return Err(PushError::Outside { row, axis: Axis::Z });
    };
    let Some(mass) = in_range(1, MAX_BODY_MASS, raw.mass) else {
        return Err(PushError::MassRange { row });
    };
    let Some(work) = in_range(0, MAX_WORK, raw.work) else {
        return Err(PushError::WorkRange { row });
    };
    if before + u64::from(mass) > MAX_ALL_MASS {
        return Err(PushError::MassSum { row });
    }
    let body = body_of(x, y, z, mass, row).unwrap();
    Ok((body, work))
}
