ghost use Rattle.std.specs.Prelude.{◌≡◌, ◌≤◌, ◌↔◌, IsSome, IfSome};
ghost use Rattle.hot_units.specs.Limits.{max_ratio};
ghost use Rattle.fixed_kernel.specs.Ratio.{reach_of};

use hot_units::limits::MAX_RATIO;
use std::marker::Model;

/// The opening ratio `num / den` of the walk: a cell is taken whole where its side is less than the
/// ratio times its distance (Barnes and Hut, 1986). It is kept as given, and not reduced.
///
/// Clauses see the two numbers. The value also keeps the squared distance beyond which the largest
/// cell is accepted, so that the opening test divides nothing.
#[derive(Clone, Copy)]
pub struct Ratio {
    num: u32,
    den: u32,
    reach: u128,
}

impl Model for Ratio {
    ghost use Rattle.std.specs.Prelude.{◌≤◌, ◌≡◌};
    ghost use Rattle.hot_units.specs.Limits.{max_ratio};
    ghost use Rattle.fixed_kernel.specs.Ratio.{RatioValue, reach_of};

    ghost Value = { RatioValue };

    ghost view = { λ r. record { num = r.num; den = r.den } };

    ghost invariant = { λ r. (r.num ≤ max_ratio) × (1 ≤ r.den) × (r.den ≤ max_ratio)
        × (r.reach ≡ reach_of r.num r.den) };

    ghost inverse = { λ v. record { num = v.num; den = v.den; reach = reach_of v.num v.den } };
}

/// The squared distance beyond which a cell of the side 2^29 is accepted.
#[tactic(auto, using(crate::proofs::Hints::on_reach), unfolding(crate::specs::Ratio::reach_of))]
fn reach_by(num: u32, den: u32) -> u128
    requires num_in { num ≤ max_ratio }
    requires den_in { den ≤ max_ratio }
    ensures value { result ≡ reach_of num den }
{
    if num == 0 {
        1 << 104
    } else {
        u128::from(den) * u128::from(den) * (1 << 58) / (u128::from(num) * u128::from(num))
    }
}

impl Ratio {
    /// The ratio of two numbers: `num` 0 to 1024, `den` 1 to 1024. None exactly where one is out of
    /// its limit. At `num` 0 no cell is ever accepted.
    pub fn new(num: u32, den: u32) -> Option<Self>
        ensures within { IsSome result ↔ ((num ≤ max_ratio) × (1 ≤ den) × (den ≤ max_ratio)) }
        ensures value { IfSome result (λ r. r ≡ record { num = num; den = den }) }
    {
        if num <= MAX_RATIO && 1 <= den && den <= MAX_RATIO {
            Some(Ratio {
                num,
                den,
                reach: reach_by(num, den),
            })
        } else {
            None
        }
    }

    /// The upper number, as it was given.
    pub fn num(self) -> u32
        ensures value { result ≡ self.num }
        ensures within { result ≤ max_ratio }
    {
        self.num
    }

    /// The lower number, as it was given.
    pub fn den(self) -> u32
        ensures value { result ≡ self.den }
        ensures positive { 1 ≤ result }
        ensures within { result ≤ max_ratio }
    {
        self.den
    }

    /// The squared distance beyond which a cell of the side 2^29 is accepted.
    #[inline]
    pub(crate) fn reach(self) -> u128
        ensures value { result ≡ reach_of self.num self.den }
    {
        self.reach
    }
}
