ghost use Rattle.std.specs.Prelude.{◌≡◌, ◌↔◌, IsTrue};
ghost use Rattle.hot_units.specs.Values.{components};
ghost use Rattle.body_set.specs.Rows.{or_zero, velocity_of_row};
ghost use Rattle.body_set.specs.Velocities.{no_velocity};

use hot_units::RawRow;
use std::marker::Model;

/// The velocity of a row, in the units of its file.
#[derive(Clone, Copy)]
pub(crate) struct Velocity {
    pub x: i128,
    pub y: i128,
    pub z: i128,
}

impl Model for Velocity {
    ghost use Rattle.hot_units.specs.Values.{Vector};

    ghost Value = { Vector };

    ghost view = { λ v. record { x = v.x; y = v.y; z = v.z } };

    ghost inverse = { λ v. record { x = v.x; y = v.y; z = v.z } };
}

/// The number of a column, or 0 where there is none.
fn or_zero(number: Option<i128>) -> i128
    ensures { result ≡ or_zero number }
{
    match number {
        Some(z) => z,
        None => 0,
    }
}

impl Velocity {
    /// The velocity that is 0 on each axis.
    pub(crate) fn none() -> Velocity
        ensures { result ≡ no_velocity }
    {
        Velocity { x: 0, y: 0, z: 0 }
    }

    /// The velocity that a row gives.
    pub(crate) fn of_row(raw: &RawRow) -> Velocity
        ensures { result ≡ velocity_of_row raw.now }
    {
        Velocity {
            x: or_zero(raw.vx),
            y: or_zero(raw.vy),
            z: or_zero(raw.vz),
        }
    }

    /// Whether the velocity is 0 on each axis.
    pub(crate) fn is_none(&self) -> bool
        ensures { IsTrue result ↔ (self.now ≡ no_velocity) }
    {
        self.x == 0 && self.y == 0 && self.z == 0
    }

    /// The three components.
    pub(crate) fn components(&self) -> [i128; 3]
        ensures { result ≡ components self.now }
    {
        [self.x, self.y, self.z]
    }
}
