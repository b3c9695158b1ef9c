ghost use Rattle.std.specs.Prelude.{◌≡◌, ◌≤◌, ◌<◌, ◌+◌, ◌*◌, ◌^◌, [], ◌∷◌, ◌++◌, List, nat_abs};
ghost use Rattle.hot_units.specs.Limits.{max_all_mass};
ghost use Rattle.hot_units.specs.Values.{vector_at};
ghost use Rattle.hot_model.specs.Kernel as kernel;
ghost use Rattle.hot_model.specs.Second.{IsSmall};
ghost use Rattle.well_walk.specs.Limits.{max_well, max_velocity, max_speed2};
ghost use Rattle.well_walk.specs.Totals as totals;
ghost use Rattle.well_walk.specs.Totals.{Share, share_of, sums_of};

use std::marker::Model;

/// Sums over bodies: of their masses, of mass times depth, and of mass times the square of the
/// speed. Twice the kinetic energy is the last one; each pair of bodies counts twice in the second
/// one.
///
/// Clauses see the three sums; which bodies they are of, `add` tells.
#[derive(Clone, Copy)]
pub struct Sums {
    mass: u64,
    well: u128,
    speed: u128,
}

impl Model for Sums {
    ghost use Rattle.std.specs.Prelude.{◌≤◌, ◌*◌};
    ghost use Rattle.hot_units.specs.Limits.{max_all_mass};
    ghost use Rattle.well_walk.specs.Limits.{max_well, max_speed2};
    ghost use Rattle.well_walk.specs.Totals.{SumsValue};

    ghost Value = { SumsValue };

    ghost view = { λ s. record { mass = s.mass; well = s.well; speed = s.speed } };

    ghost invariant = { λ s. (s.mass ≤ max_all_mass) × (s.well ≤ s.mass * max_well)
        × (s.speed ≤ s.mass * max_speed2) };

    ghost inverse = { λ v. record { mass = v.mass; well = v.well; speed = v.speed } };
}

/// The square of a component of a velocity.
#[tactic(auto, using(crate::proofs::Hints::on_products))]
fn square(v: i128) -> u128
    requires small { nat_abs v ≤ max_velocity }
    ensures value { result ≡ kernel.square (nat_abs v) }
    ensures within { result ≤ 2 ^ 84 }
{
    let size = v.unsigned_abs();
    size * size
}

/// The square of a speed.
fn speed2(v: [i128; 3]) -> u128
    requires small { IsSmall max_velocity (vector_at v) }
    ensures value { result ≡ totals.speed2 (vector_at v) }
    ensures within { result ≤ max_speed2 }
{
    square(v[0]) + square(v[1]) + square(v[2])
}

impl Sums {
    /// The sums over no bodies. It takes no memory.
    pub fn new() -> Self
        ensures value { result ≡ sums_of [] }
    {
        Sums {
            mass: 0,
            well: 0,
            speed: 0,
        }
    }

    /// Adds a body by its mass, how deep it lies, and its velocity. All masses together are at most
    /// 2^40, a depth at most 2^80, and a component of a velocity at most 2^42 in size. It takes no
    /// memory.
    #[tactic(auto, using(crate::proofs::Hints::on_sums))]
    pub fn add(&mut self, mass: u32, well: u128, v: [i128; 3])
        requires room { self.old.mass + mass ≤ max_all_mass }
        requires well_in { well ≤ max_well }
        requires v_in { IsSmall max_velocity (vector_at v) }
        ensures value { self.new ≡ totals.sums_with self.old (share_of mass well (vector_at v)) }
        ensures listed { (shares : List Share) → self.old ≡ sums_of shares
            → self.new ≡ sums_of (shares ++ share_of mass well (vector_at v) ∷ []) }
    {
        let weight = u128::from(mass);
        self.well += weight * well;
        self.speed += weight * speed2(v);
        self.mass += u64::from(mass);
    }

    /// The sum of mass times depth, at most 2^120. It takes no memory.
    pub fn well(&self) -> u128
        ensures value { result ≡ self.now.well }
        ensures within { result ≤ 2 ^ 120 }
    {
        self.well
    }

    /// The sum of mass times the square of the speed, below 2^126. It takes no memory.
    pub fn speed(&self) -> u128
        ensures value { result ≡ self.now.speed }
        ensures within { result < 2 ^ 126 }
    {
        self.speed
    }
}
