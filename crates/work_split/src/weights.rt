ghost use Rattle.std.specs.Prelude.{◌≡◌, ◌<◌, ◌≤◌, ◌*◌, eqb, if◌then◌else◌, length, sum_by, All};
ghost use Rattle.hot_units.specs.Limits.{max_bodies, max_work};
ghost use Rattle.rank_model.specs.Split.{weight_in};

use hot_units::Body;

/// The work weight of a body, by its row.
fn weight_of(weights: &[u32], b: &Body) -> u64
    requires row { b.now.row < length weights.now }
    ensures value { result ≡ weight_in weights.now b.now }
    ensures within { result ≤ max_work }
{
    u64::from(weights[b.row as usize])
}

/// The sum of the work weights of all bodies.
pub fn total(bodies: &[Body], weights: &[u32]) -> u64
    requires rows { All (λ b. b.row < length weights.now) bodies.now }
    requires few { length bodies.now ≤ max_bodies }
    ensures value { result ≡ sum_by (weight_in weights.now) bodies.now }
    ensures within { result ≤ max_bodies * max_work }
{
    let mut sum = 0;
    for b in bodies {
        let weight = weight_of(weights, b);
        sum += weight;
    }
    sum
}

/// The weight of a body that counts: 1 where all weights together are 0.
pub fn counted(weights: &[u32], all: u64, b: &Body) -> u64
    requires row { b.now.row < length weights.now }
    ensures value { result ≡ (if eqb all 0 then 1 else weight_in weights.now b.now) }
    ensures within { result ≤ max_work }
{
    if all == 0 { 1 } else { weight_of(weights, b) }
}
