ghost use Rattle.std.specs.Prelude.{◌≡◌, ◌≤◌, ◌↔◌, IsSome, IfSome};
ghost use Rattle.hot_units.specs.Limits.{max_softening};

use hot_units::limits::MAX_SOFTENING;
use std::marker::Model;

/// The softening length of gravity, in fine units (Plummer softening: its square is added to each
/// squared distance).
///
/// Clauses see it as its number.
#[derive(Clone, Copy)]
pub struct Eps {
    length: u32,
}

impl Model for Eps {
    ghost use Rattle.std.specs.Prelude.{ℕ, ◌≤◌};
    ghost use Rattle.hot_units.specs.Limits.{max_softening};

    ghost Value = { ℕ };

    ghost view = { λ e. e.length };

    ghost invariant = { λ e. (1 ≤ e.length) × (e.length ≤ max_softening) };

    ghost inverse = { λ n. record { length = n } };
}

impl Eps {
    /// The softening of `n` fine units, 1 to 268,435,456. None exactly where the number is out of
    /// this limit.
    pub fn new(n: u32) -> Option<Self>
        ensures within { IsSome result ↔ ((1 ≤ n) × (n ≤ max_softening)) }
        ensures value { IfSome result (λ e. e ≡ n) }
    {
        if 1 <= n && n <= MAX_SOFTENING {
            Some(Eps { length: n })
        } else {
            None
        }
    }

    /// The number of fine units.
    pub fn get(self) -> u32
        ensures value { result ≡ self }
        ensures positive { 1 ≤ result }
        ensures within { result ≤ max_softening }
    {
        self.length
    }
}
