// Three bodies in a row on 64 ranks, letter by letter: they are alone on the ranks 0, 21 and 42,
// and the root is a leaf that these share. Each rank tells its branches to 63 others, so 4,032
// letters; each of the three asks both others for their branch cell, and both answer it: twelve
// letters more.
ghost use Rattle.std.specs.Prelude.{◌≡◌, ◌<◌, ◌+◌, ◌∷◌, [], ℕ, Some};
ghost use Rattle.cell_mail.specs.declared.content.Kind.TheVariants as kinds;
ghost use Rattle.rank_model.specs.World.{left_of, right_of, piece};
ghost use Rattle.rank_core.specs.Times.{times};
ghost use Rattle.rank_core.specs.Seat.{IsNew};
ghost use Rattle.rank_core.specs.Seats.{seat_of, Popped};
ghost use Rattle.rank_core.specs.Standing.{StandsIn};
ghost use Rattle.rank_tests.specs.Worlds as worlds;

use crate::ranks::{advance, hand, next, quiet};
use crate::samples::{body, gravity};
use cell_mail::{Kind, Letter};
use defer_walk::WalkResult;
use hot_model::Visit;
use hot_units::Body;
use rank_core::Rank;
use std::alloc::Global;
use std::process::Abort;
use std::rt::HostRuntime;

/// The keys of the places 0, 0, 0 and 1, 0, 0 and 2, 0, 0.
const FIRST: u64 = 9_223_372_036_854_775_808;

const SECOND: u64 = 9_223_372_036_854_775_812;

const THIRD: u64 = 9_223_372_036_854_775_840;

/// The greatest key of a rank below rank `q`.
fn left(q: u32) -> Option<u64>
    ensures value { result ≡ left_of worlds.three q }
{
    if q == 0 {
        return None;
    }
    if q <= 21 {
        return Some(FIRST);
    }
    if q <= 42 {
        return Some(SECOND);
    }
    Some(THIRD)
}

/// The least key of a rank above rank `q`.
fn right(q: u32) -> Option<u64>
    ensures value { result ≡ right_of worlds.three q }
{
    if q < 21 {
        return Some(SECOND);
    }
    if q < 42 {
        return Some(THIRD);
    }
    None
}

/// A list of one of the bodies.
fn one_body(rt: &impl Abort, alloc: Global, i: u32) -> Vec<Body>
    requires few { i < 3 }
    ensures value { result.items ≡ worlds.in_row i ∷ [] }
{
    let mut bodies = Vec::new(alloc);
    bodies.push(body(rt, 256 * i, 1, i)).expect(rt, "memory");
    bodies
}

/// The bodies of rank `q`: one of the three, or none.
fn bodies_of(rt: &impl Abort, alloc: Global, q: u32) -> Vec<Body>
    ensures value { result.items ≡ piece worlds.three q }
{
    if q == 0 {
        return one_body(rt, alloc, 0);
    }
    if q == 21 {
        return one_body(rt, alloc, 1);
    }
    if q == 42 {
        return one_body(rt, alloc, 2);
    }
    Vec::new(alloc)
}

/// Rank `q` of 64.
fn rank_of_64<V: Visit>(rt: &impl Abort, alloc: Global, q: u32, visit: V) -> Rank<V>
    requires rank { q < 64 }
    ensures stands { StandsIn V.Visit V.Acc.Seen worlds.three result }
    ensures new { IsNew q 64 (seat_of result) }
{
    let own = bodies_of(rt, alloc, q);
    Rank::new(alloc, q, 64, &own, left(q), right(q), 8, visit).expect(rt, "memory")
}

/// A rank that tells its branches tells them to rank `to` next, unless that is itself.
fn tell<V: Visit>(rt: &impl Abort, rank: &mut Rank<V>, me: u32, to: u32, bytes: usize)
    requires stands { StandsIn V.Visit V.Acc.Seen worlds.three rank.old }
    requires begun { worlds.HasBegun me (seat_of rank.old) }
    ensures stands { StandsIn V.Visit V.Acc.Seen worlds.three rank.new }
    ensures begun { worlds.HasBegun me (seat_of rank.new) }
{
    if to == me {
        return;
    }
    let letter = next(rt, rank, Kind::Branches, to);
    assert_eq!(rt; letter.bytes().len(), bytes);
}

/// A new rank tells its branches to the 63 others, by ascending number, each in as many bytes.
fn tell_all<V: Visit>(rt: &impl Abort, rank: &mut Rank<V>, bytes: usize)
    requires stands { StandsIn V.Visit V.Acc.Seen worlds.three rank.old }
    requires new { IsNew (seat_of rank.old).me 64 (seat_of rank.old) }
    ensures stands { StandsIn V.Visit V.Acc.Seen worlds.three rank.new }
    ensures begun { worlds.HasBegun (seat_of rank.old).me (seat_of rank.new) }
    ensures empty { (seat_of rank.new).outbox ≡ [] }
{
    let me = rank.me();
    advance(rt, rank);
    for to in 0..64 {
        tell(rt, rank, me, to, bytes);
    }
    quiet(rt, rank);
}

/// The oldest letter of a rank.
fn pop<V: Visit>(rt: &impl Abort, rank: &mut Rank<V>) -> Letter
    ensures popped { Popped (StandsIn V.Visit V.Acc.Seen) rank.old (Some result) rank.new }
{
    rank.outbox().expect(rt, "a letter")
}

/// The letter by which rank `q` tells its branches to rank `to`: those to lower ranks come before.
fn told_to<V: Visit>(rt: &impl Abort, alloc: Global, q: u32, to: u32, visit: V) -> Letter
    requires rank { q < 64 }
    ensures told { worlds.IsSent worlds.three kinds.Branches q to result }
{
    let mut rank = rank_of_64(rt, alloc, q, visit);
    advance(rt, &mut rank);
    let before = if q < to { to - 1 } else { to };
    for _ in 0..before {
        let _letter = pop(rt, &mut rank);
    }
    next(rt, &mut rank, Kind::Branches, to)
}

/// A rank that has heard all ranks below `q` hears rank `q`, unless that is itself.
fn hear<V: Visit>(rt: &impl Abort, alloc: Global, rank: &mut Rank<V>, me: u32, q: u32, visit: V)
    requires rank { q < 64 }
    requires stands { StandsIn V.Visit V.Acc.Seen worlds.three rank.old }
    requires ready { worlds.IsReady me (seat_of rank.old) }
    requires heard { worlds.HeardBelow q (seat_of rank.old) }
    ensures stands { StandsIn V.Visit V.Acc.Seen worlds.three rank.new }
    ensures ready { worlds.IsReady me (seat_of rank.new) }
    ensures heard { worlds.HeardBelow (q + 1) (seat_of rank.new) }
{
    if q == me {
        return;
    }
    let letter = told_to(rt, alloc, q, me, visit);
    hand(rt, rank, letter);
}

/// A rank hears all others.
fn hear_all<V: Visit + Copy>(rt: &impl Abort, alloc: Global, rank: &mut Rank<V>, visit: V)
    requires stands { StandsIn V.Visit V.Acc.Seen worlds.three rank.old }
    requires begun { worlds.HasBegun (seat_of rank.old).me (seat_of rank.old) }
    requires empty { (seat_of rank.old).outbox ≡ [] }
    ensures stands { StandsIn V.Visit V.Acc.Seen worlds.three rank.new }
    ensures ready { worlds.IsReady (seat_of rank.old).me (seat_of rank.new) }
{
    let me = rank.me();
    for q in 0..64 {
        hear(rt, alloc, rank, me, q, visit);
    }
}

/// The first body opens the root, which is a leaf, so its rank asks both others for their branch
/// cells.
fn ask_both<V: Visit>(rt: &impl Abort, rank: &mut Rank<V>) -> (Letter, Letter)
    requires stands { StandsIn V.Visit V.Acc.Seen worlds.three rank.old }
    requires ready { worlds.IsReady 0 (seat_of rank.old) }
    ensures stands { StandsIn V.Visit V.Acc.Seen worlds.three rank.new }
    ensures me { (seat_of rank.new).me ≡ 0 }
    ensures read { (seat_of rank.new).inbox ≡ [] }
    ensures unanswered { (k : ℕ) → times k (seat_of rank.new).answered ≡ 0 }
    ensures one { worlds.IsSent worlds.three kinds.Asks 0 21 result.0 }
    ensures two { worlds.IsSent worlds.three kinds.Asks 0 42 result.1 }
    ensures one_asked { worlds.HasAsked (seat_of rank.new) result.0 }
    ensures two_asked { worlds.HasAsked (seat_of rank.new) result.1 }
{
    advance(rt, rank);
    let one = next(rt, rank, Kind::Asks, 21);
    let two = next(rt, rank, Kind::Asks, 42);
    quiet(rt, rank);
    assert!(rt;
        one.bytes() == b"\x02\x02\x01\x00\x00\x00\x04\x00\x00\x00\x00\x00\x00\x80".as_slice()
    );
    assert!(rt;
        two.bytes() == b"\x02\x02\x01\x00\x00\x00\x04\x00\x00\x00\x00\x00\x00\x10".as_slice()
    );
    (one, two)
}

/// Another rank with a body answers the first one: one body, so 39 bytes. It need not have heard
/// anybody.
fn answer<V: Visit>(rt: &impl Abort, alloc: Global, q: u32, visit: V, asks: Letter) -> Letter
    requires rank { q < 64 }
    requires asks { worlds.IsSent worlds.three kinds.Asks 0 q asks }
    ensures answer { worlds.IsSent worlds.three kinds.Answers q 0 result }
    ensures only { worlds.AnswersOnly asks result }
{
    let mut rank = rank_of_64(rt, alloc, q, visit);
    tell_all(rt, &mut rank, 170);
    hand(rt, &mut rank, asks);
    advance(rt, &mut rank);
    let letter = next(rt, &mut rank, Kind::Answers, 0);
    quiet(rt, &mut rank);
    assert_eq!(rt; letter.bytes().len(), 39);
    letter
}

/// The first rank takes both answers.
fn take_both<V: Visit>(rt: &impl Abort, rank: &mut Rank<V>, one: Letter, two: Letter)
    requires stands { StandsIn V.Visit V.Acc.Seen worlds.three rank.old }
    requires me { (seat_of rank.old).me ≡ 0 }
    requires read { (seat_of rank.old).inbox ≡ [] }
    requires unanswered { (k : ℕ) → times k (seat_of rank.old).answered ≡ 0 }
    requires one { worlds.IsSent worlds.three kinds.Answers 21 0 one }
    requires two { worlds.IsSent worlds.three kinds.Answers 42 0 two }
    requires one_asked { worlds.HasAskedFor (seat_of rank.old) one }
    requires two_asked { worlds.HasAskedFor (seat_of rank.old) two }
    ensures stands { StandsIn V.Visit V.Acc.Seen worlds.three rank.new }
{
    hand(rt, rank, one);
    hand(rt, rank, two);
}

/// The result of the rank of the first body.
fn first<V: Visit + Copy>(rt: &impl Abort, alloc: Global, visit: V) -> WalkResult<V::Acc> {
    let mut rank = rank_of_64(rt, alloc, 0, visit);
    tell_all(rt, &mut rank, 170);
    hear_all(rt, alloc, &mut rank, visit);
    let (to_one, to_two) = ask_both(rt, &mut rank);
    assert!(rt; !rank.finished());
    let one = answer(rt, alloc, 21, visit, to_one);
    let two = answer(rt, alloc, 42, visit, to_two);
    take_both(rt, &mut rank, one, two);
    advance(rt, &mut rank);
    assert!(rt; rank.outbox().is_none());
    assert!(rt; rank.finished());
    rank.into_results().expect(rt, "memory")
}

/// The result of a rank without bodies: it asks nobody.
fn idle<V: Visit + Copy>(rt: &impl Abort, alloc: Global, visit: V) -> WalkResult<V::Acc> {
    let mut rank = rank_of_64(rt, alloc, 1, visit);
    tell_all(rt, &mut rank, 6);
    assert!(rt; !rank.finished());
    hear_all(rt, alloc, &mut rank, visit);
    advance(rt, &mut rank);
    assert!(rt; rank.outbox().is_none());
    assert!(rt; rank.finished());
    rank.into_results().expect(rt, "memory")
}

#[test]
fn three_bodies_on_64_ranks(rt: HostRuntime) {
    let alloc = rt.alloc();
    let rt = &rt;
    // the opening ratio 7/10, and the softening 256, which is one place
    let visit = gravity(rt, 7, 10, 256);
    let found = first(rt, alloc, visit);
    assert_eq!(rt; found.accs.len(), 1);
    assert_eq!(rt; found.accs[0].ax, 8932854);
    assert_eq!(rt; found.opened, 1);
    assert_eq!(rt; found.asks, 2);
    assert_eq!(rt; found.cells.len(), 1);
    let found = idle(rt, alloc, visit);
    assert_eq!(rt; found.accs.len(), 0);
    assert_eq!(rt; found.opened, 0);
    assert_eq!(rt; found.asks, 0);
    assert_eq!(rt; found.cells.len(), 0);
}
