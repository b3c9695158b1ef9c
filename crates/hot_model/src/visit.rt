ghost use Rattle.std.specs.Prelude.{◌≡◌, ℕ, ◌+◌, ◌≤◌, ◌<◌, Bool, MatchResult};
ghost use Rattle.hot_units.specs.Limits.{max_all_mass};
ghost use Rattle.hot_units.specs.Values.{BodyValue, CellValue};
ghost use Rattle.hot_model.specs.Trees.{Term, Far, Near, mass_of_term};

use crate::CellRec;
use hot_units::{Acc3, Body};
use std::alloc::{AllocError, Global};

/// What tells how much mass was added to it.
pub trait Seen {
    /// The mass that was added so far.
    ghost seen_of: { Self → ℕ };

    /// The mass that was added so far, at most 2^40 in every walk. It takes no memory.
    fn seen(&self) -> u64
        ensures value { result ≡ seen_of self.now };
}

/// What a walk of the tree does for a body with the cells and bodies that it meets: it opens a
/// cell, or adds it as one source, and adds the bodies of a leaf one by one.
///
/// Additions may change places, so an accumulator is the same in whatever order a walk meets its
/// terms.
pub trait Visit: Send + Drop {
    type Acc: Seen + Send + Drop;

    /// The empty accumulator.
    ghost zero_of: { Self → Self.Acc };

    /// Whether the walk of a body opens a cell.
    ghost opens_by: { Self → BodyValue → CellValue → Bool };

    /// An accumulator of a body after one more term.
    ghost adds: { Self → BodyValue → Self.Acc → Term → Self.Acc };

    /// The empty accumulator, which has seen no mass. It takes no memory.
    fn zero(&self, alloc: Global) -> Self::Acc
        ensures value { result ≡ zero_of self.now }
        ensures none { Self.Acc.seen_of result ≡ 0 };

    /// Whether the walk of body `b` opens the cell, which is not empty.
    fn opens(&self, b: &Body, c: &CellRec) -> bool
        requires not_empty { 0 < c.now.count }
        ensures value { result ≡ opens_by self.now b.now c.now };

    /// Adds a cell as one source. Where memory runs out the accumulator is unchanged.
    fn far(&self, acc: &mut Self::Acc, b: &Body, c: &CellRec) -> Result<(), AllocError>
        requires not_empty { 0 < c.now.count }
        requires room { Self.Acc.seen_of acc.old + c.now.mass ≤ max_all_mass }
        ensures added_or_unchanged { MatchResult result
            (λ _. acc.new ≡ adds self.now b.now acc.old (Far c.now)) (λ _. acc.new ≡ acc.old) };

    /// Adds another body. Where memory runs out the accumulator is unchanged.
    fn near(&self, acc: &mut Self::Acc, b: &Body, other: &Body) -> Result<(), AllocError>
        requires room { Self.Acc.seen_of acc.old + other.now.mass ≤ max_all_mass }
        ensures added_or_unchanged { MatchResult result
            (λ _. acc.new ≡ adds self.now b.now acc.old (Near other.now))
            (λ _. acc.new ≡ acc.old) };

    /// Each term adds its mass to what was seen.
    ghost sees: { (v : Self) (b : BodyValue) (a : Self.Acc) (t : Term)
        → Self.Acc.seen_of (adds v b a t) ≡ Self.Acc.seen_of a + mass_of_term t };

    /// Two additions may change places.
    ghost swaps: { (v : Self) (b : BodyValue) (a : Self.Acc) (s t : Term)
        → adds v b (adds v b a s) t ≡ adds v b (adds v b a t) s };
}

impl Seen for Acc3 {
    ghost seen_of = { λ a. a.seen };

    fn seen(&self) -> u64 {
        self.seen
    }
}
