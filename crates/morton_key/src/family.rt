ghost use Rattle.std.specs.Prelude.{◌≡◌, ◌<◌, ◌+◌, ◌↔◌, IsNone, IfSome};
ghost use Rattle.hot_units.specs.Limits.{max_level};
ghost use Rattle.hot_units.specs.Keys.{IsCell, level};
ghost use Rattle.hot_units.specs.Keys as keys;

use hot_units::limits::MAX_LEVEL;

/// The cell one level above: the key without its last digit. None exactly for the root, whose key
/// is 1.
#[tactic(auto, using(crate::proofs::Hints::on_parents))]
pub fn parent(key: u64) -> Option<u64>
    requires cell { IsCell key }
    ensures root { IsNone result ↔ (key ≡ 1) }
    ensures value { IfSome result (λ k. k ≡ keys.parent key) }
    ensures cell { IfSome result (λ k. IsCell k) }
    ensures level { IfSome result (λ k. level key ≡ level k + 1) }
{
    if key == 1 { None } else { Some(key / 8) }
}

/// The daughter of a cell by its digit 0 to 7: the key with the digit behind it. None exactly for a
/// cell of level 21, the deepest.
pub fn child(key: u64, digit: u32) -> Option<u64>
    requires cell { IsCell key }
    requires digit { digit < 8 }
    ensures deepest { IsNone result ↔ (level key ≡ max_level) }
    ensures value { IfSome result (λ k. k ≡ keys.child key digit) }
    ensures cell { IfSome result (λ k. IsCell k) }
    ensures level { IfSome result (λ k. level k ≡ level key + 1) }
{
    if hot_units::level(key) < MAX_LEVEL {
        Some(8 * key + u64::from(digit))
    } else {
        None
    }
}
