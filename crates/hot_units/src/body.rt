ghost use Rattle.std.specs.Prelude.{◌≡◌, ◌<◌, ◌≤◌, ◌^◌, ◌↔◌, IsSome, IfSome};
ghost use Rattle.hot_units.specs.Limits.{fine_bits};
ghost use Rattle.hot_units.specs.Keys as keys;

use crate::limits::{FINE_BITS, MAX_LEVEL};
use crate::spread::spread_bits;
use std::marker::Model;

/// A body: its place in fine units (each coordinate below 2^29), its mass (1 to 4,294,967,295), its row
/// in the file, and the Morton key of its place (Warren and Salmon, 1993).
///
/// Clauses see all but the key, which the place determines.
#[derive(Clone, Copy)]
pub struct Body {
    pub x: u32,
    pub y: u32,
    pub z: u32,
    pub mass: u32,
    pub row: u32,
    pub key: u64,
}

impl Model for Body {
    ghost use Rattle.std.specs.Prelude.{◌≡◌, ◌<◌, ◌≤◌, ◌^◌};
    ghost use Rattle.hot_units.specs.Limits.{fine_bits, max_body_mass};
    ghost use Rattle.hot_units.specs.Values.{BodyValue};
    ghost use Rattle.hot_units.specs.Keys.{place_key};

    ghost Value = { BodyValue };

    ghost view = { λ b. record { x = b.x; y = b.y; z = b.z; mass = b.mass; row = b.row } };

    ghost invariant = { λ b. (b.x < 2 ^ fine_bits) × (b.y < 2 ^ fine_bits) × (b.z < 2 ^ fine_bits)
        × (1 ≤ b.mass) × (b.mass ≤ max_body_mass) × (b.key ≡ place_key b.x b.y b.z) };

    ghost inverse = { λ v. record {
      x = v.x;
      y = v.y;
      z = v.z;
      mass = v.mass;
      row = v.row;
      key = place_key v.x v.y v.z;
    } };
}

/// The Morton key of a place in fine units (each coordinate below 2^29), digit by digit: 1, and
/// then for each of 21 levels the bits of x, y and z from the highest on (Warren and Salmon, 1993).
/// A table of bytes sets the bits of each axis apart. It takes no memory.
#[tactic(auto, using(crate::proofs::Spreads::on_keys))]
pub fn place_key(x: u32, y: u32, z: u32) -> u64
    requires x_in { x < 2 ^ fine_bits }
    requires y_in { y < 2 ^ fine_bits }
    requires z_in { z < 2 ^ fine_bits }
    ensures value { result ≡ keys.place_key x y z }
{
    let below = FINE_BITS - MAX_LEVEL;
    let first = 1 << (3 * MAX_LEVEL);
    first + 4 * spread_bits(x >> below) + 2 * spread_bits(y >> below) + spread_bits(z >> below)
}

/// The body at a place in fine units. None exactly where a coordinate is 2^29 or more, or the mass
/// is 0. It takes no memory.
pub fn body_of(x: u32, y: u32, z: u32, mass: u32, row: u32) -> Option<Body>
    ensures in_range { IsSome result
        ↔ ((x < 2 ^ fine_bits) × (y < 2 ^ fine_bits) × (z < 2 ^ fine_bits) × (1 ≤ mass)) }
    ensures value { IfSome result
        (λ b. b ≡ record { x = x; y = y; z = z; mass = mass; row = row }) }
{
    let end = 1 << FINE_BITS;
    if x < end && y < end && z < end && mass > 0 {
        let key = place_key(x, y, z);
        Some(Body {
            x,
            y,
            z,
            mass,
            row,
            key,
        })
    } else {
        None
    }
}
