ghost use Rattle.std.specs.Prelude.{◌≡◌};
ghost use Rattle.hot_units.specs.Keys.{IsCell};
ghost use Rattle.morton_key.specs.Ranges as ranges;

use hot_units::level;
use hot_units::limits::MAX_LEVEL;

/// The least key of a body in a cell: the cell's digits, and zeros behind them up to 21 digits.
pub fn first_key(cell: u64) -> u64
    requires cell { IsCell cell }
    ensures value { result ≡ ranges.first_key cell }
    ensures least { ranges.IsLeastIn cell result }
{
    cell << (3 * (MAX_LEVEL - level(cell)))
}

/// The greatest key of a body in a cell: the cell's digits, and sevens behind them up to 21 digits.
pub fn last_key(cell: u64) -> u64
    requires cell { IsCell cell }
    ensures value { result ≡ ranges.last_key cell }
    ensures greatest { ranges.IsGreatestIn cell result }
{
    let others = (1 << (3 * (MAX_LEVEL - level(cell)))) - 1;
    first_key(cell) + others
}
