ghost use Rattle.std.specs.Prelude.{◌≡◌, ◌≢◌, ◌<◌, ◌-◌, ◌↔◌, ℕ, length, slice_index_or, All};
ghost use Rattle.std.specs.Prelude.{IsTrue, MatchOption};
ghost use Rattle.hot_units.specs.Values.{CellValue};
ghost use Rattle.local_tree.specs.Pieces.{IsFalling};

use hot_model::CellRec;

/// The record of a cell in a list of records by descending key; None exactly where it does not
/// stand there. A binary search.
pub fn find(recs: &[CellRec], key: u64) -> Option<CellRec>
    requires order { IsFalling recs.now }
    ensures found { MatchOption result (All (λ r. r.key ≢ key) recs.now)
        (λ r. (r.key ≡ key)
        × ((i : ℕ) × (i < length recs.now) × (r ≡ slice_index_or recs.now i r))) }
{
    let mut low = 0;
    let mut high = recs.len();
    while low < high {
        let middle = low + (high - low) / 2;
        let rec = &recs[middle];
        if rec.key > key {
            low = middle + 1;
        } else {
            high = middle;
        }
    }
    if low == recs.len() {
        return None;
    }
    let rec = &recs[low];
    if rec.key == key { Some(*rec) } else { None }
}

/// Whether a key is smaller than that of the last record of a list, if there is one.
pub fn is_smaller(recs: &[CellRec], key: u64) -> bool
    ensures value { IsTrue result ↔ ((d : CellValue)
        → 0 < length recs.now → key < (slice_index_or recs.now (length recs.now - 1) d).key) }
{
    if recs.is_empty() {
        return true;
    }
    let rec = &recs[recs.len() - 1];
    key < rec.key
}
