ghost use Rattle.std.specs.Prelude.{◌≡◌, ltb};
ghost use Rattle.std.specs.Ordering.{is_lt};
ghost use Rattle.std.specs.List.Sorted.{IsPermutation};
ghost use Rattle.branch_merge.specs.Merged.{first_of, AreInOrder};

use crate::Listed;
use morton_key::first_key;
use std::cmp::Ordering;

/// Which of two listed records comes first: by the first body key of its cell.
fn by_first_key(a: &Listed, b: &Listed) -> Ordering
    ensures { is_lt result ≡ ltb (first_of a.now) (first_of b.now) }
{
    first_key(a.rec.key).cmp(&first_key(b.rec.key))
}

/// The listed records in Morton order, by std's sort, which works in place.
pub(crate) fn in_morton_order(mut listed: Vec<Listed>) -> Vec<Listed>
    ensures same { IsPermutation listed.items result.items }
    ensures order { AreInOrder result.items }
{
    listed.sort_unstable_by(by_first_key);
    listed
}
