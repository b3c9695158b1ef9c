use hot_model::Seen;
use std::marker::Model;

/// The accumulator of depths: the mass that a body has seen (at most 2^40), and how deep it lies by
/// it (at most 2^40 times that mass). A depth is in units of 2^-40 of mass over fine distance.
#[derive(Clone, Copy)]
pub struct WellAcc {
    pub seen: u64,
    pub well: u128,
}

impl Model for WellAcc {
    ghost use Rattle.std.specs.Prelude.{◌≤◌, ◌^◌, ◌*◌};
    ghost use Rattle.hot_units.specs.Limits.{max_all_mass};
    ghost use Rattle.well_walk.specs.Wells.{WellValue};

    ghost Value = { WellValue };

    ghost view = { λ a. record { seen = a.seen; well = a.well } };

    ghost invariant = { λ a. (a.seen ≤ max_all_mass) × (a.well ≤ a.seen * 2 ^ 40) };

    ghost inverse = { λ v. record { seen = v.seen; well = v.well } };
}

impl Seen for WellAcc {
    ghost seen_of = { λ a. a.seen };

    fn seen(&self) -> u64 {
        self.seen
    }
}
