use std::marker::Model;

/// The accumulator of gravity: the mass that a body has seen (at most 2^40), and the force on it so
/// far, each component at most 2^40 times that mass in size. A force is in units of 2^-40 of mass
/// over squared fine distance.
#[derive(Clone, Copy)]
pub struct Acc3 {
    pub seen: u64,
    pub ax: i128,
    pub ay: i128,
    pub az: i128,
}

impl Model for Acc3 {
    ghost use Rattle.std.specs.Prelude.{◌≤◌, ◌^◌, ◌*◌, nat_abs};
    ghost use Rattle.hot_units.specs.Limits.{max_all_mass};
    ghost use Rattle.hot_units.specs.Values.{Acc3Value};

    ghost Value = { Acc3Value };

    ghost view = { λ a. record { seen = a.seen; ax = a.ax; ay = a.ay; az = a.az } };

    ghost invariant = { λ a. (a.seen ≤ max_all_mass) × (nat_abs a.ax ≤ a.seen * 2 ^ 40)
        × (nat_abs a.ay ≤ a.seen * 2 ^ 40) × (nat_abs a.az ≤ a.seen * 2 ^ 40) };

    ghost inverse = { λ v. record { seen = v.seen; ax = v.ax; ay = v.ay; az = v.az } };
}
