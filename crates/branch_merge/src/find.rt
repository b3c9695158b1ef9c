ghost use Rattle.std.specs.Prelude.{◌≡◌, All, Contains, MatchOption};
ghost use Rattle.std.specs.List.Sorted.{IsNonDecreasingBy};
ghost use Rattle.branch_merge.specs.Merged.{key_of_top};

use crate::TopCell;

/// The top cell of a key in a list by ascending key; None exactly where it does not stand there. A
/// binary search.
pub(crate) fn find(cells: &[TopCell], key: u64) -> Option<&TopCell>
    requires order { IsNonDecreasingBy key_of_top cells.now }
    ensures found { MatchOption result (All (λ c. c.rec.key ≡ key → ⊥) cells.now)
        (λ c. (c.now.rec.key ≡ key) × Contains cells.now c.now) }
{
    let mut low = 0;
    let mut high = cells.len();
    while low < high {
        let middle = low + (high - low) / 2;
        let rec = &cells[middle].rec;
        if rec.key < key {
            low = middle + 1;
        } else {
            high = middle;
        }
    }
    if low == cells.len() {
        return None;
    }
    let cell = &cells[low];
    let rec = &cell.rec;
    if rec.key == key { Some(cell) } else { None }
}
