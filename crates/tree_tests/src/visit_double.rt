//! A double of a visit, which runs out of memory.

use hot_model::{CellRec, Visit};
use hot_units::Body;
use std::alloc::{AllocError, Global};

/// A visit like another one, but that finds no memory for bodies of one mass.
#[derive(Drop)]
pub struct HungryVisit<V: Visit> {
    pub visit: V,
    pub mass: u32,
}

impl<V: Visit> Visit for HungryVisit<V> {
    type Acc = V::Acc;

    ghost zero_of = { λ h. V.zero_of h.visit };

    ghost opens_by = { λ h b c. V.opens_by h.visit b c };

    ghost adds = { λ h b a t. V.adds h.visit b a t };

    fn zero(&self, alloc: Global) -> V::Acc {
        self.visit.zero(alloc)
    }

    fn opens(&self, b: &Body, c: &CellRec) -> bool {
        self.visit.opens(b, c)
    }

    fn far(&self, acc: &mut V::Acc, b: &Body, c: &CellRec) -> Result<(), AllocError> {
        self.visit.far(acc, b, c)
    }

    fn near(&self, acc: &mut V::Acc, b: &Body, other: &Body) -> Result<(), AllocError> {
        if other.mass == self.mass {
            return Err(AllocError);
        }
        self.visit.near(acc, b, other)
    }

    ghost sees = { λ h b a t. V.sees h.visit b a t };

    ghost swaps = { λ h b a s t. V.swaps h.visit b a s t };
}
