ghost use Rattle.std.specs.Prelude.{◌≡◌, ◌≤◌, ◌<◌, ◌^◌};
ghost use Rattle.hot_units.specs.Limits.{max_level};
ghost use Rattle.hot_units.specs.Values.{coordinates};
ghost use Rattle.hot_units.specs.Keys as keys;
ghost use Rattle.hot_units.specs.Keys.{IsCell};
ghost use Rattle.hot_model.specs.Kernel.{InCube};

use hot_units::level;
use hot_units::limits::FINE_BITS;

/// The bits of one axis in the last digits of a key.
#[tactic(auto, using(crate::proofs::Axes::on_bits))]
fn bits_along(key: u64, digits: u32, axis: u32) -> u32
    requires digits { digits ≤ max_level }
    requires axis { axis < 3 }
    ensures value { result ≡ keys.bits_along digits key axis }
    ensures within { result < 2 ^ digits }
{
    let mut bits = 0u32;
    for done in 0..digits {
        let front = key >> (3 * (digits - 1 - done));
        bits = 2 * bits + ((front >> axis) % 2) as u32;
    }
    bits
}

/// The least coordinate in a cell along an axis.
fn corner_along(cell: u64, axis: u32) -> u32
    requires cell { IsCell cell }
    requires axis { axis < 3 }
    ensures value { result ≡ keys.corner_along cell axis }
    ensures within { result < 2 ^ 29 }
{
    let depth = level(cell);
    bits_along(cell, depth, axis) << (FINE_BITS - depth)
}

/// The corner of a cell: its least fine coordinates. The bodies of the cell are those whose
/// coordinates are from these on and below these plus the side of the cell. It takes no memory.
pub fn corner(cell: u64) -> [u32; 3]
    requires cell { IsCell cell }
    ensures value { result ≡ coordinates (keys.corner cell) }
    ensures within { InCube result }
{
    [
        corner_along(cell, 2),
        corner_along(cell, 1),
        corner_along(cell, 0),
    ]
}
