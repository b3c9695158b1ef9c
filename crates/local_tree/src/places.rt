ghost use Rattle.std.specs.Prelude.{◌≡◌, ◌+◌, ◌<◌, ◌≤◌, length, slice_get, slice_range};
ghost use Rattle.hot_units.specs.Limits.{max_level};
ghost use Rattle.hot_units.specs.Keys.{IsCell};
ghost use Rattle.hot_units.specs.Keys as keys;
ghost use Rattle.hot_units.specs.Order.{IsInOrder};
ghost use Rattle.hot_model.specs.Trees as trees;
ghost use Rattle.morton_key.specs.Ranges as ranges;

use hot_units::Body;
use hot_units::limits::MAX_LEVEL;
use morton_key::{first_key, last_key};

/// How many bodies of a list in key order have at most this key, which are from the lower to the
/// upper bound: a binary search.
#[tactic(auto, using(crate::proofs::Hints::on_search))]
pub fn count_within(bodies: &[Body], key: u64, lower: usize, upper: usize) -> usize
    requires order { IsInOrder bodies.now }
    requires lower { lower ≤ ranges.count_below (key + 1) bodies.now }
    requires upper { ranges.count_below (key + 1) bodies.now ≤ upper }
    requires within { upper ≤ length bodies.now }
    ensures value { result ≡ ranges.count_below (key + 1) bodies.now }
{
    let mut low = lower;
    let mut high = upper;
    while low < high {
        let middle = low + (high - low) / 2;
        let b = &bodies[middle];
        if b.key <= key {
            low = middle + 1;
        } else {
            high = middle;
        }
    }
    low
}

/// How many bodies of a list in key order stand before those of a cell.
pub fn start_of(bodies: &[Body], cell: u64) -> usize
    requires order { IsInOrder bodies.now }
    requires cell { IsCell cell }
    ensures value { result ≡ ranges.count_below (ranges.first_key cell) bodies.now }
{
    count_within(bodies, first_key(cell) - 1, 0, bodies.len())
}

/// The places from and to (exclusive) of the bodies of a cell in a list in key order.
#[tactic(auto, using(crate::proofs::Hints::on_places))]
pub fn places(bodies: &[Body], cell: u64) -> (usize, usize)
    requires order { IsInOrder bodies.now }
    requires cell { IsCell cell }
    ensures low { result.0 ≡ ranges.count_below (ranges.first_key cell) bodies.now }
    ensures high { result.1 ≡ ranges.count_below (ranges.last_key cell + 1) bodies.now }
    ensures inside { trees.inside bodies.now cell ≡ slice_range bodies.now result.0 result.1 }
    ensures ascending { result.0 ≤ result.1 }
    ensures within { result.1 ≤ length bodies.now }
{
    let from = start_of(bodies, cell);
    let to = count_within(bodies, last_key(cell), from, bodies.len());
    (from, to)
}

/// The body at a place among those of a cell in a list in key order; None exactly past the last. A
/// binary search.
pub fn body_in(bodies: &[Body], cell: u64, i: u32) -> Option<Body>
    requires order { IsInOrder bodies.now }
    requires cell { IsCell cell }
    ensures value { result ≡ slice_get (trees.inside bodies.now cell) i }
{
    let at = start_of(bodies, cell) + i as usize;
    if at >= bodies.len() {
        return None;
    }
    let b = &bodies[at];
    if b.key <= last_key(cell) {
        Some(*b)
    } else {
        None
    }
}

/// The cell of a level that has the body with this key: the key without the digits behind.
pub fn front(key: u64, level: u32) -> u64
    requires level { level ≤ max_level }
    ensures value { result ≡ keys.front level key }
{
    key >> (3 * (MAX_LEVEL - level))
}

/// The child of a cell by its digit.
pub fn child_of(key: u64, digit: u64) -> u64
    requires cell { IsCell key }
    requires upper { keys.level key < max_level }
    requires digit { digit < 8 }
    ensures value { result ≡ keys.child key digit }
    ensures cell { IsCell result }
{
    8 * key + digit
}
