ghost use Rattle.std.specs.Prelude.{◌≡◌, ◌≤◌, ◌<◌, ◌+◌, ◌*◌, ◌^◌, not};
ghost use Rattle.hot_units.specs.Limits.{max_all_mass};
ghost use Rattle.hot_model.specs.Kernel as kernel;
ghost use Rattle.hot_model.specs.Trees.{Far, Near};
ghost use Rattle.well_walk.specs.Wells as wells;
ghost use Rattle.well_walk.specs.Wells.{well_adds, well_nothing, well_value, term_depth};
ghost use Rattle.well_walk.specs.Additions.{well_sees, well_swaps};
ghost use Rattle.well_walk.specs.Visit.{visit_of};

use crate::{WellAcc, depth};
use fixed_kernel::{Eps, Ratio, accepts, centre};
use hot_model::{CellRec, Visit};
use hot_units::Body;
use std::alloc::{AllocError, Global};
use std::marker::Model;

/// The visit of depths (by the tree of Barnes and Hut, 1986): it opens a cell that the opening test
/// does not accept, and adds up how deep a body lies by the cells and bodies that it meets, a cell
/// acting by its mass alone.
///
/// Additions may change places, and a depth stays at most 2^40 times the mass seen. Clauses see the
/// ratio and the softening.
#[derive(Clone, Copy)]
pub struct WellVisit {
    ratio: Ratio,
    eps: Eps,
}

impl Model for WellVisit {
    ghost use Rattle.well_walk.specs.Visit.{VisitValue};

    ghost Value = { VisitValue };

    ghost view = { λ v. record { ratio = v.ratio; eps = v.eps } };

    ghost inverse = { λ v. record { ratio = v.ratio; eps = v.eps } };
}

impl WellVisit {
    /// The visit with an opening ratio and a softening. It takes no memory.
    pub fn new(ratio: Ratio, eps: Eps) -> Self
        ensures value { result ≡ visit_of ratio eps }
    {
        WellVisit { ratio, eps }
    }
}

/// How deep a body lies by another one; by itself it lies no deeper.
#[inline(always)]
fn depth_near(b: &Body, other: &Body, eps: Eps) -> u128
    ensures value { result ≡ term_depth eps b.now (Near other.now) }
    ensures within { result ≤ other.now.mass * 2 ^ 40 }
{
    if other.row != b.row {
        let from = [b.x, b.y, b.z];
        depth(
            from,
            [other.x, other.y, other.z],
            u64::from(other.mass),
            eps,
        )
    } else {
        0
    }
}

/// How deep a body lies by a cell as one source.
#[inline(always)]
fn depth_far(b: &Body, c: &CellRec, eps: Eps) -> u128
    requires not_empty { 0 < c.now.count }
    ensures value { result ≡ term_depth eps b.now (Far c.now) }
    ensures within { result ≤ c.now.mass * 2 ^ 40 }
{
    depth([b.x, b.y, b.z], centre(c), c.mass, eps)
}

/// An accumulator after one more mass and the depth by it.
#[inline(always)]
fn deeper(acc: WellAcc, mass: u64, by: u128) -> WellAcc
    requires small { by ≤ mass * 2 ^ 40 }
    requires room { acc.seen + mass ≤ max_all_mass }
    ensures value { result ≡ well_value (acc.seen + mass) (acc.well + by) }
{
    WellAcc {
        seen: acc.seen + mass,
        well: acc.well + by,
    }
}

impl Visit for WellVisit {
    type Acc = WellAcc;

    ghost zero_of = { λ _. well_nothing };

    ghost opens_by = { λ v b c. not (kernel.accepts v.ratio.num v.ratio.den b c) };

    ghost adds = { λ v b a t. well_adds v.eps b a t };

    fn zero(&self, _alloc: Global) -> WellAcc {
        WellAcc { seen: 0, well: 0 }
    }

    /// Whether the opening test does not accept the cell.
    fn opens(&self, b: &Body, c: &CellRec) -> bool {
        !accepts(b, c, self.ratio)
    }

    /// Adds the mass of a cell, and the depth by all of it at the centre. It never refuses, and
    /// takes no memory.
    fn far(&self, acc: &mut WellAcc, b: &Body, c: &CellRec) -> Result<(), AllocError>
        requires not_empty { 0 < c.now.count }
        requires room { acc.old.seen + c.now.mass ≤ max_all_mass }
        ensures never_refused { result ≡ Ok tt }
        ensures value { acc.new ≡ well_adds self.now.eps b.now acc.old (Far c.now) }
    {
        let by = depth_far(b, c, self.eps);
        *acc = deeper(*acc, c.mass, by);
        Ok(())
    }

    /// Adds the mass of a body, and the depth by it where it has another row. It never refuses, and
    /// takes no memory.
    fn near(&self, acc: &mut WellAcc, b: &Body, other: &Body) -> Result<(), AllocError>
        requires room { acc.old.seen + other.now.mass ≤ max_all_mass }
        ensures never_refused { result ≡ Ok tt }
        ensures value { acc.new ≡ well_adds self.now.eps b.now acc.old (Near other.now) }
    {
        let by = depth_near(b, other, self.eps);
        *acc = deeper(*acc, u64::from(other.mass), by);
        Ok(())
    }

    ghost sees = { λ v b a t. well_sees v.eps b a t };

    ghost swaps = { λ v b a s t. well_swaps v.eps b a s t };
}
