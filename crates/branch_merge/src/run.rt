ghost use Rattle.std.specs.Prelude.{◌≡◌, ◌≤◌, length, filter, slice_range};
ghost use Rattle.hot_units.specs.Keys.{IsCell};
ghost use Rattle.hot_units.specs.Keys as keys;
ghost use Rattle.branch_merge.specs.Merged.{AreInOrder, AreSorted, NoneAbove, IsCountTo};

use crate::Listed;
use morton_key::{first_key, last_key};

/// How many listed records in Morton order have a first key of at most this one: a binary search.
pub(crate) fn count_to(listed: &[Listed], key: u64) -> usize
    requires order { AreInOrder listed.now }
    ensures value { IsCountTo listed.now key result }
{
    let mut low = 0;
    let mut high = listed.len();
    while low < high {
        let middle = low + (high - low) / 2;
        let rec = &listed[middle].rec;
        if first_key(rec.key) <= key {
            low = middle + 1;
        } else {
            high = middle;
        }
    }
    low
}

/// The places from and to (exclusive) of the listed records in a cell that is in none of them.
pub(crate) fn run(listed: &[Listed], cell: u64) -> (usize, usize)
    requires sorted { AreSorted listed.now }
    requires cell { IsCell cell }
    requires outside { NoneAbove listed.now cell }
    ensures covered { filter (λ x. keys.covers cell x.rec.key) listed.now
        ≡ slice_range listed.now result.0 result.1 }
    ensures ascending { result.0 ≤ result.1 }
    ensures within { result.1 ≤ length listed.now }
{
    let from = count_to(listed, first_key(cell) - 1);
    let to = count_to(listed, last_key(cell));
    (from, to)
}
