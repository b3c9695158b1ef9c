ghost use Rattle.std.specs.Prelude.{◌≡◌, ◌≤◌, ◌<◌, ◌↔◌, ◌+◌, ◌+ℤ◌, ◌*◌, ◌^◌};
ghost use Rattle.std.specs.Prelude.{not, pos, slice_index_or, nat_abs, IsSome, IfSome, true, false};
ghost use Rattle.hot_units.specs.Limits.{max_all_mass};
ghost use Rattle.hot_units.specs.Values.{components, vector_at};
ghost use Rattle.hot_model.specs.Kernel as kernel;
ghost use Rattle.hot_model.specs.Kernel.{IsPullBy};
ghost use Rattle.hot_model.specs.Second.{IsSmall};
ghost use Rattle.hot_model.specs.Trees as trees;
ghost use Rattle.hot_model.specs.Trees.{Near, Far};
ghost use Rattle.hot_model.specs.Forces.{gravity_adds, untouched};
ghost use Rattle.fixed_kernel.specs.Additions.{gravity_sees, gravity_swaps};
ghost use Rattle.fixed_kernel.specs.Visit.{visit_of, after_term};

use crate::distance::{distance2, softened};
use crate::pulls::pull_softened;
use crate::quads::quad_softened;
use crate::{Eps, Ratio, accepts, centre, pull};
use hot_model::{CellRec, Seen, Visit};
use hot_units::{Acc3, Body};
use std::alloc::{AllocError, Global};
use std::marker::Model;

/// The visit of the gravity walk (Barnes and Hut, 1986): it opens a cell that the opening test does
/// not accept, and adds up the pulls of the cells and bodies that it meets. At second order a cell
/// acts with its second moments.
///
/// Additions may change places, and each component stays at most 2^40 times the mass seen. Clauses
/// see the ratio and the softening.
#[derive(Clone, Copy)]
pub struct ForceVisit {
    ratio: Ratio,
    eps: Eps,
    second: bool,
}

impl Model for ForceVisit {
    ghost use Rattle.fixed_kernel.specs.Visit.{VisitValue};

    ghost Value = { VisitValue };

    ghost view = { λ v. record { ratio = v.ratio; eps = v.eps; second = v.second } };

    ghost inverse = { λ v. record { ratio = v.ratio; eps = v.eps; second = v.second } };
}

impl ForceVisit {
    /// The visit with an opening ratio and a softening, of first order: a cell acts by its mass
    /// alone. It takes no memory.
    pub fn new(ratio: Ratio, eps: Eps) -> Self
        ensures value { result ≡ visit_of ratio eps false }
    {
        ForceVisit {
            ratio,
            eps,
            second: false,
        }
    }

    /// The visit of second order: a cell acts with its second moments too. None exactly where the
    /// ratio is above 1. It takes no memory.
    pub fn with_second(ratio: Ratio, eps: Eps) -> Option<Self>
        ensures within { IsSome result ↔ (ratio.num ≤ ratio.den) }
        ensures value { IfSome result (λ v. v ≡ visit_of ratio eps true) }
    {
        if ratio.num() <= ratio.den() {
            Some(ForceVisit {
                ratio,
                eps,
                second: true,
            })
        } else {
            None
        }
    }
}

/// The sum of a component of two pulls.
fn sum_along(a: i128, b: i128) -> i128
    requires a_in { nat_abs a ≤ 2 ^ 80 }
    requires b_in { nat_abs b ≤ 2 ^ 80 }
    ensures value { result ≡ a +ℤ b }
{
    a + b
}

/// The sum of two pulls.
fn sum(a: [i128; 3], b: [i128; 3]) -> [i128; 3]
    requires a_in { IsSmall (2 ^ 80) (vector_at a) }
    requires b_in { IsSmall (2 ^ 80) (vector_at b) }
    ensures value { result ≡ components (kernel.plus (vector_at a) (vector_at b)) }
{
    [
        sum_along(a[0], b[0]),
        sum_along(a[1], b[1]),
        sum_along(a[2], b[2]),
    ]
}

/// The pull of a cell as one source, with its second moments or without.
#[tactic(auto, using(crate::proofs::Hints::on_soft))]
#[inline(always)]
fn pull_far(second: bool, eps: Eps, b: &Body, c: &CellRec) -> [i128; 3]
    requires not_empty { 0 < c.now.count }
    ensures value { result ≡ components (trees.pull_far second eps b.now c.now) }
    ensures within { IsPullBy c.now.mass result }
{
    let _at_least_one = eps.get();
    let place = [b.x, b.y, b.z];
    let at = centre(c);
    let apart = distance2(place, at);
    let soft = softened(apart, eps);
    let by = pull_softened(place, at, c.mass, soft, eps);
    if second {
        sum(by, quad_softened(place, at, c, apart, soft, eps))
    } else {
        by
    }
}

/// A component after one more pull.
fn grown(a: i128, by: i128, seen: u64, mass: u64) -> i128
    requires old { nat_abs a ≤ seen * 2 ^ 40 }
    requires more { nat_abs by ≤ mass * 2 ^ 40 }
    requires room { seen + mass ≤ max_all_mass }
    ensures value { result ≡ a +ℤ by }
    ensures small { nat_abs result ≤ (seen + mass) * 2 ^ 40 }
{
    a + by
}

/// An accumulator after one more pull.
fn pulled(acc: Acc3, by: [i128; 3], mass: u64) -> Acc3
    requires small { IsPullBy mass by }
    requires room { acc.seen + mass ≤ max_all_mass }
    ensures value { result ≡ record {
      seen = acc.seen + mass;
      ax = acc.ax +ℤ slice_index_or by 0 (pos 0);
      ay = acc.ay +ℤ slice_index_or by 1 (pos 0);
      az = acc.az +ℤ slice_index_or by 2 (pos 0);
    } }
{
    Acc3 {
        seen: acc.seen + mass,
        ax: grown(acc.ax, by[0], acc.seen, mass),
        ay: grown(acc.ay, by[1], acc.seen, mass),
        az: grown(acc.az, by[2], acc.seen, mass),
    }
}

impl Visit for ForceVisit {
    type Acc = Acc3;

    ghost zero_of = { λ _. untouched };

    ghost opens_by = { λ v b c. not (kernel.accepts v.ratio.num v.ratio.den b c) };

    ghost adds = { λ v b a t. gravity_adds v.second v.eps b a t };

    fn zero(&self, _alloc: Global) -> Acc3 {
        Acc3 {
            seen: 0,
            ax: 0,
            ay: 0,
            az: 0,
        }
    }

    /// Whether the opening test does not accept the cell.
    fn opens(&self, b: &Body, c: &CellRec) -> bool {
        !accepts(b, c, self.ratio)
    }

    /// Adds the pull of a cell as one source. It never refuses, and takes no memory.
    fn far(&self, acc: &mut Acc3, b: &Body, c: &CellRec) -> Result<(), AllocError>
        requires not_empty { 0 < c.now.count }
        requires room { acc.old.seen + c.now.mass ≤ max_all_mass }
        ensures never_refused { result ≡ Ok tt }
        ensures value { acc.new ≡ after_term self.now b.now acc.old (Far c.now) }
    {
        let by = pull_far(self.second, self.eps, b, c);
        *acc = pulled(*acc, by, c.mass);
        Ok(())
    }

    /// Adds the pull of another body; a body that meets itself adds 0. It never refuses, and takes
    /// no memory.
    fn near(&self, acc: &mut Acc3, b: &Body, other: &Body) -> Result<(), AllocError>
        requires room { acc.old.seen + other.now.mass ≤ max_all_mass }
        ensures never_refused { result ≡ Ok tt }
        ensures value { acc.new ≡ after_term self.now b.now acc.old (Near other.now) }
    {
        let mass = u64::from(other.mass);
        let by = pull([b.x, b.y, b.z], [other.x, other.y, other.z], mass, self.eps);
        *acc = pulled(*acc, by, mass);
        Ok(())
    }

    ghost sees = { λ v b a t. gravity_sees v.second v.eps b a t };

    ghost swaps = { λ v b a s t. gravity_swaps v.second v.eps b a s t };
}
