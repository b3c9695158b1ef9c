ghost use Rattle.std.specs.Prelude.{◌≡◌, ◌<◌, ◌≤◌, ◌↔◌, IsSome, IfSome, false};
ghost use Rattle.hot_units.specs.Limits.{max_ratio, max_softening, max_leaf};

use crate::fold_of;
use fixed_kernel::{Eps, ForceVisit, Ratio};
use hot_model::ForceEngine;
use hot_units::limits::MAX_LEAF;
use hot_units::{Acc3, Body};
use std::alloc::{AllocError, Global};
use std::marker::Model;

/// The reference engine, of first order: for each body one recursive walk that filters the bodies
/// of each cell for its children. Every other engine answers the same forces.
#[derive(Drop)]
pub struct PlainEngine {
    ratio: Ratio,
    eps: Eps,
    leaf: u32,
}

impl Model for PlainEngine {
    ghost use Rattle.std.specs.Prelude.{◌≤◌, false};
    ghost use Rattle.hot_units.specs.Limits.{max_leaf};
    ghost use Rattle.hot_model.specs.Trees.{Settings};

    ghost Value = { Settings };

    ghost view = { λ e. record {
      num = e.ratio.num;
      den = e.ratio.den;
      eps = e.eps;
      leaf = e.leaf;
      second = false;
    } };

    ghost invariant = { λ e. (1 ≤ e.leaf) × (e.leaf ≤ max_leaf) };
}

impl PlainEngine {
    /// The engine of the opening ratio `ratio_num / ratio_den` (each at most 1024, the lower one at
    /// least 1), the softening `eps` in fine units (1 to 2^28) and the leaf limit `leaf` (1 to 64);
    /// None exactly where a number is out of its limit. It takes no memory.
    pub fn new(ratio_num: u32, ratio_den: u32, eps: u32, leaf: u32) -> Option<PlainEngine>
        ensures in_limits { IsSome result
            ↔ ((ratio_num ≤ max_ratio) × (1 ≤ ratio_den) × (ratio_den ≤ max_ratio) × (1 ≤ eps)
            × (eps ≤ max_softening) × (1 ≤ leaf) × (leaf ≤ max_leaf)) }
        ensures settings { IfSome result
            (λ e. e
            ≡ record {
              num = ratio_num;
              den = ratio_den;
              eps = eps;
              leaf = leaf;
              second = false;
            }) }
    {
        let ratio = Ratio::new(ratio_num, ratio_den)?;
        let eps = Eps::new(eps)?;
        if 1 <= leaf && leaf <= MAX_LEAF {
            Some(PlainEngine { ratio, eps, leaf })
        } else {
            None
        }
    }
}

impl ForceEngine for PlainEngine {
    type Link = ();

    ghost settings = { λ e. e };

    ghost is_ready = { λ _ _. Unit {0} };

    ghost answers = { λ e _ _ f _. f ≡ e };

    ghost refuses = { λ e _ _ f _. f ≡ e };

    fn forces(
        &mut self,
        alloc: Global,
        _link: &mut (),
        bodies: &[Body],
    ) -> Result<Vec<Acc3>, AllocError> {
        let visit = ForceVisit::new(self.ratio, self.eps);
        let leaf = self.leaf;
        let mut answers = Vec::new(alloc);
        for b in bodies {
            answers.push(fold_of(&visit, alloc, bodies, leaf, b)?)?;
        }
        Ok(answers)
    }
}
