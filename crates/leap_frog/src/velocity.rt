ghost use Rattle.std.specs.Prelude.{ℕ, ◌≡◌, ◌<◌, ◌≤◌, ◌+◌, ◌*◌, ◌^◌, pos, ◌+ℤ◌, nat_abs, true};
ghost use Rattle.std.specs.Prelude.{false, MatchOption, IfSome};
ghost use Rattle.hot_units.specs.Limits.{fine_bits};
ghost use Rattle.hot_units.specs.Values.{components};
ghost use Rattle.hot_model.specs.Kernel.{plus};
ghost use Rattle.leap_frog.specs.Leap as leap;
ghost use Rattle.leap_frog.specs.States.{IsWithin, vector_of, force_in, max_force, max_kicked};
ghost use Rattle.leap_frog.specs.States.{max_speed};

use crate::limits::VELOCITY_BITS;
use hot_units::Acc3;
use hot_units::limits::FINE_BITS;
use std::marker::Model;

/// A velocity, in units of 2^-20 of fine length a step.
#[derive(Clone, Copy)]
pub(crate) struct Velocity {
    pub x: i128,
    pub y: i128,
    pub z: i128,
}

impl Model for Velocity {
    ghost use Rattle.hot_units.specs.Values.{Vector};

    ghost Value = { Vector };

    ghost view = { λ v. record { x = v.x; y = v.y; z = v.z } };

    ghost inverse = { λ v. record { x = v.x; y = v.y; z = v.z } };
}

/// One component of a velocity with one of a force added.
fn sum(v: i128, force: i128) -> i128
    requires velocity { nat_abs v ≤ max_speed }
    requires force { nat_abs force ≤ max_force }
    ensures { result ≡ v +ℤ force }
{
    v + force
}

impl Velocity {
    /// The velocity with these components.
    pub(crate) fn of(v: [i128; 3]) -> Velocity
        ensures { result ≡ vector_of v }
    {
        Velocity {
            x: v[0],
            y: v[1],
            z: v[2],
        }
    }

    /// The three components.
    pub(crate) fn components(&self) -> [i128; 3]
        ensures { result ≡ components self.now }
    {
        [self.x, self.y, self.z]
    }

    /// The velocity with a force added.
    pub(crate) fn kicked(self, force: &Acc3) -> Velocity
        requires { IsWithin max_speed self }
        ensures value { result ≡ plus self (force_in force.now) }
        ensures grown { (most : ℕ) → IsWithin most self → IsWithin (most + max_force) result }
    {
        Velocity {
            x: sum(self.x, force.ax),
            y: sum(self.y, force.ay),
            z: sum(self.z, force.az),
        }
    }

    /// The velocity the other way.
    pub(crate) fn opposite(self) -> Velocity
        requires { IsWithin max_speed self }
        ensures { result ≡ leap.opposite self }
    {
        Velocity {
            x: -self.x,
            y: -self.y,
            z: -self.z,
        }
    }
}

/// How far a velocity carries in one step, in fine length: rounded toward zero, so that the
/// opposite one carries as far back.
fn carried(v: i128) -> i128
    requires { nat_abs v ≤ max_kicked }
    ensures value { result ≡ leap.carried v }
    ensures within { nat_abs result ≤ nat_abs v }
{
    if v < 0 {
        -((-v) >> VELOCITY_BITS)
    } else {
        v >> VELOCITY_BITS
    }
}

/// Where a coordinate comes to; None exactly outside the cube.
pub(crate) fn drifted(x: u32, v: i128) -> Option<u32>
    requires { nat_abs v ≤ max_kicked }
    ensures inside { MatchOption result (leap.is_fine (pos x +ℤ leap.carried v) ≡ false)
        (λ n. (leap.is_fine (pos x +ℤ leap.carried v) ≡ true)
        × (n ≡ nat_abs (pos x +ℤ leap.carried v))) }
    ensures within { IfSome result (λ n. n < 2 ^ fine_bits) }
{
    let at = i128::from(x) + carried(v);
    if 0 <= at && at < 1 << FINE_BITS {
        Some(at as u32)
    } else {
        None
    }
}
