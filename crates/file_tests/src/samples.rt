// Rows and sets of bodies for the tests of the crates that take them.
use body_set::BodySet;
use hot_units::{Cube, RawRow};
use key_order::Ordered;
use std::alloc::Global;
use std::process::Abort;

/// A cube of 21 bits, in which a coordinate counts 256 fine units.
pub const CUBE: Cube = Cube {
    bits: 21,
    x0: 0,
    y0: 0,
    z0: 0,
};

/// A place, a mass and a work weight.
pub type Row = ([i128; 3], i128, i128);

/// A row at a place, with a mass, an ident and a work weight.
pub fn row_at(place: [i128; 3], mass: i128, ident: i128, work: i128) -> RawRow {
    RawRow {
        x: place[0],
        y: place[1],
        z: place[2],
        mass,
        ident,
        work,
        vx: None,
        vy: None,
        vz: None,
    }
}

/// The bodies of these rows, in key order.
pub fn set_of(rt: &impl Abort, alloc: Global, rows: &[Row]) -> Ordered {
    let mut set = BodySet::new(alloc, CUBE);
    for (place, mass, work) in rows {
        set.push(&row_at(*place, *mass, 0, *work))
            .expect(rt, "a good row");
    }
    set.order(alloc).expect(rt, "memory")
}
