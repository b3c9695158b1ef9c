ghost use Rattle.std.specs.Prelude.{◌≡◌, ◌<◌, ◌≤◌, ◌+◌, ℕ, length, slice_index, map, IfOk};
ghost use Rattle.hot_units.specs.Limits.{max_bodies, max_ranks};
ghost use Rattle.hot_units.specs.Numbers as numbers;
ghost use Rattle.hot_units.specs.Keys.{key_of_body};
ghost use Rattle.hot_units.specs.Order.{IsInOrder};
ghost use Rattle.rank_model.specs.World as world;
ghost use Rattle.key_order.specs.Ordered.{OrderedValue, IsOrderedSet};
ghost use Rattle.work_split.specs.Splits as splits;

use crate::shares::tally;
use hot_units::Body;
use key_order::Ordered;
use std::alloc::{AllocError, Global};
use std::marker::Model;

/// The split of a set of bodies over ranks: for each rank the places of its bodies in the list in
/// key order, and their weight. Clauses see where each piece starts, with the end of the last
/// behind them, and the weights.
#[derive(Drop)]
pub struct Pieces {
    starts: Vec<usize>,
    weights: Vec<u64>,
}

impl Model for Pieces {
    ghost use Rattle.std.specs.Prelude.{◌≡◌, suc, length};
    ghost use Rattle.work_split.specs.Values.{PiecesValue};

    ghost Value = { PiecesValue };

    ghost view = { λ p. record { starts = p.starts.items; weights = p.weights.items } };

    ghost invariant = { λ p. length p.starts.items ≡ suc (length p.weights.items) };
}

/// Splits a set over 1 to 64 ranks. The rank of a body is `min(ranks - 1, floor(P * ranks / W))`,
/// where `W` is the sum of all weights and `P` that of all bodies with a smaller key; where `W` is
/// 0 each body counts as 1. So bodies of one key share a rank, and ranks never fall along the keys.
/// Time is linear in the bodies.
pub fn split(alloc: Global, set: &Ordered, ranks: u32) -> Result<Pieces, AllocError>
    requires one { 1 ≤ ranks }
    requires many { ranks ≤ max_ranks }
    ensures pieces { IfOk result (λ p. p ≡ splits.pieces_of set.now ranks) }
    ensures ranks { IfOk result (λ p. splits.ranks_of p ≡ ranks) }
{
    let bodies = set.bodies();
    let shares = tally(alloc, bodies, set.weights(), ranks)?;
    let mut starts = Vec::with_capacity(alloc, ranks as usize + 1)?;
    let mut at = 0;
    starts.push(at)?;
    for count in &shares.counts {
        at += *count;
        starts.push(at)?;
    }
    Ok(Pieces {
        starts,
        weights: shares.weights,
    })
}

/// The greatest key of a list in key order, if there is one.
fn greatest_key(bodies: &[Body]) -> Option<u64>
    requires order { IsInOrder bodies.now }
    ensures value { result ≡ numbers.greatest (map key_of_body bodies.now) }
{
    if bodies.is_empty() {
        return None;
    }
    let b = &bodies[bodies.len() - 1];
    Some(b.key)
}

/// The least key of a list in key order, if there is one.
fn least_key(bodies: &[Body]) -> Option<u64>
    requires order { IsInOrder bodies.now }
    ensures value { result ≡ numbers.least (map key_of_body bodies.now) }
{
    if bodies.is_empty() {
        return None;
    }
    let b = &bodies[0];
    Some(b.key)
}

impl Pieces {
    /// The places of a rank's bodies in the list in key order, from and to (exclusive). The first
    /// is the number of bodies of lower ranks, also for a rank without bodies.
    pub fn range(&self, q: u32) -> (usize, usize)
        requires rank { q < splits.ranks_of self.now }
        ensures value { result
            ≡ (slice_index self.now.starts q, slice_index self.now.starts (q + 1)) }
        ensures piece { (set : OrderedValue) → IsOrderedSet set
            → self.now ≡ splits.pieces_of set (splits.ranks_of self.now)
            → splits.IsRun set.bodies
            (world.piece (splits.world_of set (splits.ranks_of self.now)) q) result.0 result.1 }
    {
        let q = q as usize;
        (self.starts[q], self.starts[q + 1])
    }

    /// The weight of a rank's bodies: the sum of their work weights, or their number where all
    /// weights are 0.
    pub fn weight(&self, q: u32) -> u64
        requires rank { q < splits.ranks_of self.now }
        ensures value { result ≡ slice_index self.now.weights q }
        ensures piece { (set : OrderedValue)
            → self.now ≡ splits.pieces_of set (splits.ranks_of self.now)
            → result ≡ splits.weight_of set (splits.ranks_of self.now) q }
    {
        self.weights[q as usize]
    }

    /// The greatest key of a lower rank and the least key of a higher rank, in the set that was
    /// split.
    pub fn neighbours(&self, set: &Ordered, q: u32) -> (Option<u64>, Option<u64>)
        requires rank { q < splits.ranks_of self.now }
        requires same { self.now ≡ splits.pieces_of set.now (splits.ranks_of self.now) }
        ensures left { result.0
            ≡ world.left_of (splits.world_of set.now (splits.ranks_of self.now)) q }
        ensures right { result.1
            ≡ world.right_of (splits.world_of set.now (splits.ranks_of self.now)) q }
    {
        let bodies = set.bodies();
        let (from, to) = self.range(q);
        (greatest_key(&bodies[..from]), least_key(&bodies[to..]))
    }
}
