ghost use Rattle.std.specs.Prelude.{◌≡◌, ◌+◌, ◌<◌, ◌≤◌, ◌^◌, true, [], ◌∷◌};
ghost use Rattle.hot_units.specs.Limits.{max_all_mass};
ghost use Rattle.hot_units.specs.Keys.{IsCell, contains, covers};
ghost use Rattle.hot_model.specs.Trees.{record_of};
ghost use Rattle.moments.specs.Sums.{joined};

use hot_model::CellRec;
use hot_units::Body;

/// The record of a cell without bodies: its key, and all else 0.
pub fn empty(key: u64) -> CellRec
    requires cell { IsCell key }
    ensures value { result ≡ record_of key [] }
{
    CellRec::new(key, 0, 0, [0; 3], [0; 6])
}

/// The record of a cell that has one body: count 1, the body's mass, on each axis mass times
/// coordinate, and for each two axes mass times both coordinates.
#[tactic(auto, using(crate::proofs::Hints::on_sums))]
pub fn of_body(cell: u64, b: &Body) -> CellRec
    requires cell { IsCell cell }
    requires contained { contains cell b.now ≡ true }
    ensures value { result ≡ record_of cell (b.now ∷ []) }
{
    let mass = u128::from(b.mass);
    let x = u128::from(b.x);
    let y = u128::from(b.y);
    let z = u128::from(b.z);
    let sx = mass * x;
    let sy = mass * y;
    let sz = mass * z;
    let products = [sx * x, sy * y, sz * z, sx * y, sx * z, sy * z];
    CellRec::new(cell, 1, u64::from(b.mass), [sx, sy, sz], products)
}

/// Adds the record of a cell to that of a cell that contains it or is it: the counts, the masses
/// (together at most 2^40) and the nine sums. The key stays.
#[tactic(auto, using(crate::proofs::Hints::on_sums))]
pub fn add(to: &mut CellRec, from: &CellRec)
    requires contained { covers to.old.key from.now.key ≡ true }
    requires few { to.old.count + from.now.count < 2 ^ 32 }
    requires light { to.old.mass + from.now.mass ≤ max_all_mass }
    ensures value { to.new ≡ joined to.old from.now }
{
    *to = CellRec::new(
        to.key,
        to.count + from.count,
        to.mass + from.mass,
        [to.sx + from.sx, to.sy + from.sy, to.sz + from.sz],
        [
            to.sxx + from.sxx,
            to.syy + from.syy,
            to.szz + from.szz,
            to.sxy + from.sxy,
            to.sxz + from.sxz,
            to.syz + from.syz,
        ],
    );
}
