use std::marker::Model;

/// The cube of a body file: bodies have whole coordinates from the corner `x0`, `y0`, `z0` on, over
/// an edge of 2^`bits` (1 to 29 bits). A coordinate `x` of the file is `(x - x0) * 2^(29 - bits)`
/// in fine units.
#[derive(Clone, Copy)]
pub struct Cube {
    pub bits: u32,
    pub x0: i128,
    pub y0: i128,
    pub z0: i128,
}

impl Model for Cube {
    ghost use Rattle.std.specs.Prelude.{◌≤◌};
    ghost use Rattle.hot_units.specs.Limits.{fine_bits};
    ghost use Rattle.hot_units.specs.Values.{CubeValue};

    ghost Value = { CubeValue };

    ghost view = { λ c. record { bits = c.bits; x0 = c.x0; y0 = c.y0; z0 = c.z0 } };

    ghost invariant = { λ c. (1 ≤ c.bits) × (c.bits ≤ fine_bits) };

    ghost inverse = { λ v. record { bits = v.bits; x0 = v.x0; y0 = v.y0; z0 = v.z0 } };
}

/// One of the three axes.
#[derive(Clone, Copy, Debug, PartialEq, Eq)]
pub enum Axis {
    X,
    Y,
    Z,
}
