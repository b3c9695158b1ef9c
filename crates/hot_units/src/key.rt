ghost use Rattle.std.specs.Prelude.{◌≡◌, ◌≤◌, ◌/◌, ◌-◌};
ghost use Rattle.hot_units.specs.Limits.{max_level};
ghost use Rattle.hot_units.specs.Keys as keys;

/// The level of a cell key: the number of its octal digits behind the leading 1, 0 to 21. It takes
/// no memory.
#[tactic(auto, using(crate::proofs::Keys::on_levels))]
#[inline]
pub fn level(key: u64) -> u32
    requires cell { keys.IsCell key }
    ensures value { result ≡ keys.level key }
    ensures within { result ≤ max_level }
{
    key.ilog2() / 3
}

/// Whether a key begins with the digits of a cell. A cell covers itself. It takes no memory.
#[tactic(auto, using(crate::proofs::Keys::on_covers))]
#[inline]
pub fn covers(cell: u64, key: u64) -> bool
    requires cell { keys.IsCell cell }
    requires key { keys.IsCell key }
    ensures value { result ≡ keys.covers cell key }
{
    let upper = cell.ilog2();
    let lower = key.ilog2();
    upper <= lower && key >> (lower - upper) == cell
}
