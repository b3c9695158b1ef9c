// What several tests share: a visit, bodies, and the ranks of two small worlds.
ghost use Rattle.std.specs.Prelude.{◌≡◌, ◌<◌};
ghost use Rattle.rank_core.specs.Seat.{IsNew};
ghost use Rattle.rank_core.specs.Seats.{seat_of, visit_of};
ghost use Rattle.rank_core.specs.Standing.{StandsIn};
ghost use Rattle.rank_tests.specs.Worlds as worlds;

use fixed_kernel::{Eps, ForceVisit, Ratio};
use hot_model::Visit;
use hot_units::{Body, body_of};
use rank_core::Rank;
use std::alloc::Global;
use std::process::Abort;

/// The keys of the places 0, 0, 0 and 1024, 0, 0, and of that of the crowd.
const NEAR: u64 = 9_223_372_036_854_775_808;

const FAR: u64 = 9_223_372_036_854_776_064;

const POINT: u64 = 9_223_372_036_854_776_263;

/// The fine coordinate of the crowd on each axis.
const MIDDLE: u32 = 1280;

/// The visit of gravity with this opening ratio and this softening.
pub(crate) fn gravity(rt: &impl Abort, numer: u32, denom: u32, eps: u32) -> ForceVisit {
    let ratio = Ratio::new(numer, denom).expect(rt, "a ratio");
    ForceVisit::new(ratio, Eps::new(eps).expect(rt, "a softening"))
}

/// A body on the first axis.
pub(crate) fn body(rt: &impl Abort, x: u32, mass: u32, row: u32) -> Body
    ensures value { result ≡ record { x = x; y = 0; z = 0; mass = mass; row = row } }
{
    body_of(x, 0, 0, mass, row).expect(rt, "a body")
}

/// A body of the crowd.
fn at_point(rt: &impl Abort, row: u32) -> Body
    ensures value { result ≡ worlds.at_point row }
{
    body_of(MIDDLE, MIDDLE, MIDDLE, 1, row).expect(rt, "a body")
}

/// The first of two ranks with one body each.
pub(crate) fn first<V: Visit>(rt: &impl Abort, alloc: Global, visit: V) -> Rank<V>
    ensures stands { StandsIn V.Visit V.Acc.Seen worlds.two result }
    ensures new { IsNew 0 2 (seat_of result) }
    ensures visit { visit_of result ≡ visit }
{
    let own = [body(rt, 0, 1, 0)];
    Rank::new(alloc, 0, 2, &own, None, Some(FAR), 8, visit).expect(rt, "memory")
}

/// The second of them.
pub(crate) fn second<V: Visit>(rt: &impl Abort, alloc: Global, visit: V) -> Rank<V>
    ensures stands { StandsIn V.Visit V.Acc.Seen worlds.two result }
    ensures new { IsNew 1 2 (seat_of result) }
    ensures visit { visit_of result ≡ visit }
{
    let own = [body(rt, 1024, 3, 1)];
    Rank::new(alloc, 1, 2, &own, Some(NEAR), None, 8, visit).expect(rt, "memory")
}

/// The first of three ranks, with a crowd of five bodies.
pub(crate) fn crowded<V: Visit>(rt: &impl Abort, alloc: Global, visit: V) -> Rank<V>
    ensures stands { StandsIn V.Visit V.Acc.Seen worlds.five result }
    ensures new { IsNew 0 3 (seat_of result) }
    ensures visit { visit_of result ≡ visit }
{
    let own = [
        at_point(rt, 0),
        at_point(rt, 1),
        at_point(rt, 2),
        at_point(rt, 3),
        at_point(rt, 4),
    ];
    Rank::new(alloc, 0, 3, &own, None, None, 8, visit).expect(rt, "memory")
}

/// Another of them, which has none.
pub(crate) fn empty<V: Visit>(rt: &impl Abort, alloc: Global, q: u32, visit: V) -> Rank<V>
    requires higher { 0 < q }
    requires within { q < 3 }
    ensures stands { StandsIn V.Visit V.Acc.Seen worlds.five result }
    ensures new { IsNew q 3 (seat_of result) }
    ensures visit { visit_of result ≡ visit }
{
    Rank::new(alloc, q, 3, &[], Some(POINT), None, 8, visit).expect(rt, "memory")
}
