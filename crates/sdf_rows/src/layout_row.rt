//! A row from its bytes.

ghost use Rattle.std.specs.Prelude.{◌≡◌, length};
ghost use Rattle.sdf_rows.specs.Rows.{row_of, Has64Bits};

use crate::column::{number_at, number_if_there, number_or};
use hot_units::RawRow;
use sdf_header::Layout;

/// The row of this number in its bytes.
pub fn row_of(layout: &Layout, number: u64, row: &[u8]) -> RawRow
    requires { length row.now ≡ layout.now.width }
    ensures value { result ≡ row_of layout.now number row.now }
    ensures fits { Has64Bits result }
{
    let order = layout.order;
    RawRow {
        x: number_at(layout.x, order, row),
        y: number_at(layout.y, order, row),
        z: number_at(layout.z, order, row),
        mass: number_or(u64::from(layout.mass_default), layout.mass, order, row),
        ident: number_or(number, layout.ident, order, row),
        work: number_or(1, layout.work, order, row),
        vx: number_if_there(layout.vx, order, row),
        vy: number_if_there(layout.vy, order, row),
        vz: number_if_there(layout.vz, order, row),
    }
}
