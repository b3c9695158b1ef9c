ghost use Rattle.std.specs.Prelude.{◌≡◌, ◌≤◌, ◌<◌, ◌↔◌, ◌+◌, IsSome, IfSome, MatchResult, false};
ghost use Rattle.hot_units.specs.Limits.{max_all_mass};
ghost use Rattle.hot_model.specs.Trees.{Far, Near};
ghost use Rattle.near_walk.specs.Limits.{max_radius};
ghost use Rattle.near_walk.specs.Near as near;
ghost use Rattle.near_walk.specs.Near.{near_adds, near_nothing, near_opens};
ghost use Rattle.near_walk.specs.Additions.{near_sees, near_swaps};

use crate::NearAcc;
use crate::boxes::{box_distance2, distance2};
use crate::limits::MAX_RADIUS;
use hot_model::{CellRec, Visit};
use hot_units::Body;
use std::alloc::{AllocError, Global};
use std::marker::Model;

/// The visit of neighbours (a fixed-radius search over the tree of Barnes and Hut, 1986): it opens a
/// cell whose box comes within the radius, and gathers the rows of the other bodies within it.
///
/// Additions may change places. Clauses see the radius, in fine units.
#[derive(Clone, Copy)]
pub struct NearVisit {
    radius: u32,
}

impl Model for NearVisit {
    ghost use Rattle.std.specs.Prelude.{ℕ, ◌≤◌};
    ghost use Rattle.near_walk.specs.Limits.{max_radius};

    ghost Value = { ℕ };

    ghost view = { λ v. v.radius };

    ghost invariant = { λ v. v.radius ≤ max_radius };

    ghost inverse = { λ n. record { radius = n } };
}

impl NearVisit {
    /// The visit with a radius in fine units. None exactly above 1,073,741,824. It takes no memory.
    pub fn new(radius: u32) -> Option<Self>
        ensures within { IsSome result ↔ (radius ≤ max_radius) }
        ensures value { IfSome result (λ v. v ≡ radius) }
    {
        if radius <= MAX_RADIUS {
            Some(NearVisit { radius })
        } else {
            None
        }
    }

    /// Whether a squared distance is at most that of the radius.
    fn reaches(self, squared: u64) -> bool
        ensures value { result ≡ near.is_within self squared }
    {
        let radius = u64::from(self.radius);
        squared <= radius * radius
    }

    /// Whether another body is a neighbour.
    fn is_neighbour(self, b: &Body, other: &Body) -> bool
        ensures value { result ≡ near.is_neighbour self b.now other.now }
    {
        other.row != b.row && self.reaches(distance2([b.x, b.y, b.z], [other.x, other.y, other.z]))
    }
}

impl Visit for NearVisit {
    type Acc = NearAcc;

    ghost zero_of = { λ _. near_nothing };

    ghost opens_by = { λ v b c. near_opens v b c };

    ghost adds = { λ v b a t. near_adds v b a t };

    fn zero(&self, alloc: Global) -> NearAcc {
        NearAcc::new(alloc)
    }

    /// Whether the box of the cell comes within the radius of the body.
    fn opens(&self, b: &Body, c: &CellRec) -> bool {
        self.reaches(box_distance2([b.x, b.y, b.z], c))
    }

    /// Adds the mass of a cell to what was seen, and no row. It never refuses, and takes no memory.
    fn far(&self, acc: &mut NearAcc, _b: &Body, c: &CellRec) -> Result<(), AllocError>
        requires not_empty { 0 < c.now.count }
        requires room { acc.old.seen + c.now.mass ≤ max_all_mass }
        ensures never_refused { result ≡ Ok tt }
        ensures value { acc.new ≡ near_adds self.now _b.now acc.old (Far c.now) }
    {
        acc.see(c.mass);
        Ok(())
    }

    /// Adds the mass of another body to what was seen, and its row where it is a neighbour. Where
    /// memory runs out the accumulator is unchanged. It takes memory for a neighbour alone.
    fn near(&self, acc: &mut NearAcc, b: &Body, other: &Body) -> Result<(), AllocError>
        requires room { acc.old.seen + other.now.mass ≤ max_all_mass }
        ensures added_or_unchanged { MatchResult result
            (λ _. acc.new ≡ near_adds self.now b.now acc.old (Near other.now))
            (λ _. acc.new ≡ acc.old) }
        ensures refused_for_a_row { near.is_neighbour self.now b.now other.now ≡ false
            → result ≡ Ok tt }
    {
        if self.is_neighbour(b, other) {
            acc.insert(other.row)?;
        }
        acc.see(u64::from(other.mass));
        Ok(())
    }

    ghost sees = { λ v b a t. near_sees v b a t };

    ghost swaps = { λ v b a s t. near_swaps v b a s t };
}
