ghost use Rattle.std.specs.Prelude.{◌≡◌, ◌<◌, ◌≤◌, ◌^◌, ◌/◌, ◌*◌, ◌-◌};
ghost use Rattle.hot_units.specs.Limits.{fine_bits};
ghost use Rattle.hot_units.specs.Values.{cell_by, coordinates, point_at};
ghost use Rattle.hot_units.specs.Keys.{IsInBox};
ghost use Rattle.hot_model.specs.Facts.{IsCellRecord};
ghost use Rattle.hot_model.specs.Kernel.{centre, InCube};

use std::marker::Model;

/// The record of a cell: its key, the count and mass of its bodies, the sums of mass times
/// coordinate, and those of mass times the product of two coordinates. Whoever made it, its centre
/// lies in its cell.
///
/// It is made by `CellRec::new` alone, since it keeps the centre of mass beside the sums: the
/// opening test and the pull of a cell then divide nothing. Clauses do not see the centre, which
/// the sums determine.
#[derive(Clone, Copy)]
pub struct CellRec {
    pub key: u64,
    pub count: u32,
    mx: u32,
    pub mass: u64,
    my: u32,
    mz: u32,
    pub sx: u128,
    pub sy: u128,
    pub sz: u128,
    pub sxx: u128,
    pub syy: u128,
    pub szz: u128,
    pub sxy: u128,
    pub sxz: u128,
    pub syz: u128,
}

impl Model for CellRec {
    ghost use Rattle.std.specs.Prelude.{◌≡◌, ◌/◌};
    ghost use Rattle.hot_units.specs.Values.{CellValue, cell_of};
    ghost use Rattle.hot_model.specs.Facts.{IsCellRecord};

    ghost Value = { CellValue };

    ghost view = { λ c. cell_of c.key c.count c.mass c.sx c.sy c.sz c.sxx c.syy c.szz c.sxy c.sxz
        c.syz };

    ghost invariant = { λ c. IsCellRecord
        (cell_of c.key c.count c.mass c.sx c.sy c.sz c.sxx c.syy c.szz c.sxy c.sxz c.syz)
        × (c.mx ≡ c.sx / c.mass) × (c.my ≡ c.sy / c.mass) × (c.mz ≡ c.sz / c.mass) };

    ghost inverse = { λ v. record {
      key = v.key;
      count = v.count;
      mass = v.mass;
      sx = v.sx;
      sy = v.sy;
      sz = v.sz;
      sxx = v.sxx;
      syy = v.syy;
      szz = v.szz;
      sxy = v.sxy;
      sxz = v.sxz;
      syz = v.syz;
      mx = v.sx / v.mass;
      my = v.sy / v.mass;
      mz = v.sz / v.mass;
    } };
}

/// One coordinate of a centre, or 0 where there is no mass.
#[tactic(auto, using(crate::proofs::Centres::on_parts))]
fn part(sum: u128, mass: u64) -> u32
    requires { sum ≤ mass * (2 ^ fine_bits - 1) }
    ensures { result ≡ sum / mass }
{
    if mass == 0 {
        0
    } else {
        (sum / u128::from(mass)) as u32
    }
}

impl CellRec {
    /// The record of a cell by its numbers: the sums for x, y, z, and the products for xx, yy, zz,
    /// xy, xz, yz. It takes no memory.
    pub fn new(key: u64, count: u32, mass: u64, sums: [u128; 3], products: [u128; 6]) -> Self
        requires facts { IsCellRecord (cell_by key count mass sums products) }
        ensures value { result ≡ cell_by key count mass sums products }
    {
        CellRec {
            key,
            count,
            mass,
            sx: sums[0],
            sy: sums[1],
            sz: sums[2],
            sxx: products[0],
            syy: products[1],
            szz: products[2],
            sxy: products[3],
            sxz: products[4],
            syz: products[5],
            mx: part(sums[0], mass),
            my: part(sums[1], mass),
            mz: part(sums[2], mass),
        }
    }

    /// The centre of mass, rounded down on each axis, in fine units (0, 0, 0 for a cell without
    /// mass). It lies in the cell.
    #[tactic(auto, using(crate::proofs::Centres::on_parts))]
    #[inline]
    pub fn centre(&self) -> [u32; 3]
        ensures value { result ≡ coordinates (centre self.now) }
        ensures within { InCube result }
        ensures in_cell { 0 < self.now.count → IsInBox self.now.key (point_at result) }
    {
        [self.mx, self.my, self.mz]
    }
}
