ghost use Rattle.std.specs.Prelude.{◌≡◌, ◌<◌, ◌≤◌, ◌-◌, ◌*◌, ◌/◌, ℕ, min, length, slice_index};
ghost use Rattle.std.specs.Prelude.{IfOk, All};
ghost use Rattle.hot_units.specs.Limits.{max_bodies, max_ranks, max_work};
ghost use Rattle.hot_units.specs.Order.{IsInOrder};
ghost use Rattle.work_split.specs.Splits as splits;

use crate::weights::{counted, total};
use hot_units::Body;
use std::alloc::{AllocError, Global};

/// For each rank, how many bodies it has and their weight.
#[derive(Drop)]
pub struct Shares {
    pub counts: Vec<usize>,
    pub weights: Vec<u64>,
}

/// The rank of the bodies whose key has this weight below it.
fn rank_at(below: u64, whole: u64, ranks: u32) -> usize
    requires one { 1 ≤ ranks }
    requires few { ranks ≤ max_ranks }
    requires some { 0 < whole }
    requires light { below ≤ max_bodies * max_work }
    ensures value { result ≡ min (ranks - 1) (below * ranks / whole) }
    ensures within { result < ranks }
{
    let share = below * u64::from(ranks) / whole;
    let last = u64::from(ranks - 1);
    if share < last {
        share as usize
    } else {
        last as usize
    }
}

/// The count and weight of each rank, by one pass over the bodies in key order with the running sum
/// of the weights: the rank changes only where the key does, so bodies of one key stay together.
pub fn tally(
    alloc: Global,
    bodies: &[Body],
    weights: &[u32],
    ranks: u32,
) -> Result<Shares, AllocError>
    requires one { 1 ≤ ranks }
    requires many { ranks ≤ max_ranks }
    requires order { IsInOrder bodies.now }
    requires rows { All (λ b. b.row < length weights.now) bodies.now }
    requires few { length bodies.now ≤ max_bodies }
    ensures counts { IfOk result
        (λ t. splits.AreCounts bodies.now weights.now ranks bodies.now t.counts.items) }
    ensures weights { IfOk result
        (λ t. splits.AreWeights bodies.now weights.now ranks bodies.now t.weights.items) }
{
    let all = total(bodies, weights);
    let whole = if all == 0 { bodies.len() as u64 } else { all };
    let mut counts = vec![in alloc; 0; ranks as usize]?;
    let mut sums = vec![in alloc; 0; ranks as usize]?;
    let mut before = 0;
    let mut key = 0;
    let mut rank = 0;
    for b in bodies {
        if b.key != key {
            key = b.key;
            rank = rank_at(before, whole, ranks);
        }
        let weight = counted(weights, all, b);
        before += weight;
        counts[rank] += 1;
        sums[rank] += weight;
    }
    Ok(Shares {
        counts,
        weights: sums,
    })
}
