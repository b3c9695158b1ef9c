//! Lists of bodies for tests.
ghost use Rattle.std.specs.Prelude.{◌≡◌, ◌<◌, ◌≤◌, ◌-◌, length, get_or};
ghost use Rattle.hot_units.specs.Limits.{max_all_mass};
ghost use Rattle.hot_units.specs.Values.{BodyValue};
ghost use Rattle.hot_units.specs.Keys.{key_of_body};
ghost use Rattle.hot_units.specs.Bodies.{mass_of as mass_in, RowsDiffer};
ghost use Rattle.defer_walk.specs.Listing.{IsListing};

use hot_units::limits::{MAX_ALL_MASS, MAX_BODIES};
use hot_units::{Body, body_of};
use std::alloc::Global;
use std::process::Abort;

/// The key of the last body, or 0.
fn last_key(bodies: &[Body]) -> u64
    ensures value { (d : BodyValue) → 0 < length bodies.now
        → result ≡ key_of_body (get_or bodies.now (length bodies.now - 1) d) }
{
    let count = bodies.len();
    if count == 0 {
        return 0;
    }
    let last = &bodies[count - 1];
    last.key
}

/// Adds a body by x, y, z and mass, whose key is not below that of the last. It takes the mass of
/// all so far, and gives that with the new one.
fn push_body(rt: &impl Abort, bodies: &mut Vec<Body>, mass: u64, row: &[u32; 4]) -> u64
    requires listing { IsListing bodies.old.items }
    requires mass { mass ≡ mass_in bodies.old.items }
    ensures listing { IsListing bodies.new.items }
    ensures mass { result ≡ mass_in bodies.new.items }
{
    let at = bodies.len();
    assert!(rt; at < MAX_BODIES as usize);
    let body = body_of(row[0], row[1], row[2], row[3], at as u32).expect(
        rt,
        "the body is in range",
    );
    assert!(rt; last_key(bodies) <= body.key);
    let with = mass + u64::from(body.mass);
    assert!(rt; with <= MAX_ALL_MASS);
    bodies.push(body).expect(rt, "memory");
    with
}

/// The bodies at these places with these masses (x, y, z and mass in a row), which are in key
/// order. Each has its place in the list as its row.
pub fn bodies_of(rt: &impl Abort, alloc: Global, rows: &[[u32; 4]]) -> Vec<Body>
    ensures listing { IsListing result.items }
    ensures rows { RowsDiffer result.items }
    ensures light { mass_in result.items ≤ max_all_mass }
{
    let mut bodies = Vec::new(alloc);
    let mut mass = 0;
    for row in rows {
        mass = push_body(rt, &mut bodies, mass, row);
    }
    bodies
}

/// The mass in all rows.
pub fn mass_of(rows: &[[u32; 4]]) -> u64 {
    rows.iter()
        .map(|row| u64::from(row[3]))
        .fold(0u64, |all, mass| all.wrapping_add(mass))
}
