ghost use Rattle.std.specs.Prelude.{◌≡◌, ◌<◌, ◌^◌, ◌↔◌, IsTrue};
ghost use Rattle.hot_units.specs.Limits.{fine_bits};
ghost use Rattle.hot_units.specs.Keys.{place_key, IsCell};

/// The key of the body at a place in fine units, each coordinate below 2^29: 1, and then 21 octal
/// digits, the one at level `l` made of bit `29 - l` of x, y and z in this order (the body key of
/// Warren and Salmon, 1993).
pub fn key_of(x: u32, y: u32, z: u32) -> u64
    requires x_in { x < 2 ^ fine_bits }
    requires y_in { y < 2 ^ fine_bits }
    requires z_in { z < 2 ^ fine_bits }
    ensures value { result ≡ place_key x y z }
{
    hot_units::place_key(x, y, z)
}

/// Whether a number is the key of a cell: 1, and then 0 to 21 octal digits. Every number may be
/// asked for, so a key that came in a letter can be tested before it is used.
#[tactic(auto, using(crate::proofs::Hints::on_tests))]
pub fn is_cell(key: u64) -> bool
    ensures value { IsTrue result ↔ IsCell key }
{
    key != 0 && key.ilog2() % 3 == 0
}
