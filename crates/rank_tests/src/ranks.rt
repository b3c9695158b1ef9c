// Worked cases of ranks, letter by letter.
ghost use Rattle.std.specs.Prelude.{◌≡◌, ◌≢◌, [], false, Some};
ghost use Rattle.cell_mail.specs.Letters.{kind_of};
ghost use Rattle.rank_model.specs.World.{World};
ghost use Rattle.rank_core.specs.Seat.{IsFresh, IsNew, Moves, with_letter};
ghost use Rattle.rank_core.specs.Seats.{FitsALetter, IsItsLetter, Popped, StandsByLetter, seat_of};
ghost use Rattle.rank_core.specs.Seats.{visit_of};
ghost use Rattle.rank_core.specs.Standing.{FitsAWorld, StandsIn};
ghost use Rattle.rank_tests.specs.Worlds as worlds;

use crate::samples::{body, crowded, empty, first, gravity, second};
use cell_mail::{Kind, Letter};
use defer_walk::WalkResult;
use fixed_kernel::ForceVisit;
use hot_model::Visit;
use rank_core::{Rank, rank_stays_true, results_rest_on_letters, seat_tells_finished};
use std::alloc::Global;
use std::process::Abort;
use std::rt::HostRuntime;

/// A step with ample memory.
pub(crate) fn advance<V: Visit>(rt: &impl Abort, rank: &mut Rank<V>)
    requires fits { FitsAWorld V.Visit V.Acc.Seen rank.old }
    ensures kept { (w : World) → StandsIn V.Visit V.Acc.Seen w rank.old
        → StandsIn V.Visit V.Acc.Seen w rank.new }
    ensures moves { (w : World) → StandsIn V.Visit V.Acc.Seen w rank.old
        → Moves (V.opens_by (visit_of rank.old)) w (seat_of rank.old) (seat_of rank.new) }
{
    rank.step().expect(rt, "memory");
}

/// The oldest letter of a rank, which is of this kind and to this rank.
pub(crate) fn next<V: Visit>(rt: &impl Abort, rank: &mut Rank<V>, kind: Kind, to: u32) -> Letter
    ensures popped { Popped (StandsIn V.Visit V.Acc.Seen) rank.old (Some result) rank.new }
    ensures truth { IsItsLetter V.Visit V.Acc.Seen rank.old result }
    ensures kind { kind_of result.content ≡ kind }
    ensures receiver { result.to ≡ to }
{
    let letter = rank.outbox().expect(rt, "a letter");
    assert!(rt; letter.kind() == kind);
    assert_eq!(rt; letter.to(), to);
    letter
}

/// The outbox of a rank is empty.
pub(crate) fn quiet<V: Visit>(rt: &impl Abort, rank: &mut Rank<V>)
    ensures kept { (w : World) → StandsIn V.Visit V.Acc.Seen w rank.old
        → StandsIn V.Visit V.Acc.Seen w rank.new }
    ensures seat { seat_of rank.new ≡ seat_of rank.old }
    ensures empty { (seat_of rank.new).outbox ≡ [] }
{
    assert!(rt; rank.outbox().is_none());
}

/// A rank takes a letter, with ample memory.
pub(crate) fn hand<V: Visit>(rt: &impl Abort, rank: &mut Rank<V>, letter: Letter)
    requires fits { FitsALetter V.Visit V.Acc.Seen rank.old letter }
    requires mine { letter.to ≡ (seat_of rank.old).me }
    requires fresh { IsFresh (seat_of rank.old) letter }
    ensures kept { StandsByLetter V.Visit V.Acc.Seen rank.old letter rank.new }
    ensures seat { seat_of rank.new ≡ with_letter (seat_of rank.old) letter }
{
    rank.take(letter).expect(rt, "memory");
}

/// The results of two bodies on one rank.
fn alone<V: Visit>(rt: &impl Abort, alloc: Global, visit: V) -> WalkResult<V::Acc> {
    let own = [body(rt, 0, 1, 0), body(rt, 1024, 3, 1)];
    let mut rank = Rank::new(alloc, 0, 1, &own, None, None, 8, visit).expect(rt, "memory");
    assert!(rt; !rank.finished());
    rank.step().expect(rt, "memory");
    assert!(rt; rank.outbox().is_none());
    assert!(rt; rank.finished());
    rank.into_results().expect(rt, "memory")
}

/// Two new ranks tell each other their branches: one record each, so 170 bytes.
fn tell<V: Visit>(rt: &impl Abort, left: &mut Rank<V>, right: &mut Rank<V>)
    requires left_stands { StandsIn V.Visit V.Acc.Seen worlds.two left.old }
    requires right_stands { StandsIn V.Visit V.Acc.Seen worlds.two right.old }
    requires left_new { IsNew 0 2 (seat_of left.old) }
    requires right_new { IsNew 1 2 (seat_of right.old) }
    ensures left_stands { StandsIn V.Visit V.Acc.Seen worlds.two left.new }
    ensures right_stands { StandsIn V.Visit V.Acc.Seen worlds.two right.new }
    ensures left_ready { worlds.IsReady 0 (seat_of left.new) }
    ensures right_ready { worlds.IsReady 1 (seat_of right.new) }
{
    advance(rt, left);
    advance(rt, right);
    let to_right = next(rt, left, Kind::Branches, 1);
    let to_left = next(rt, right, Kind::Branches, 0);
    quiet(rt, left);
    quiet(rt, right);
    assert_eq!(rt; to_right.bytes().len(), 170);
    assert_eq!(rt; to_left.bytes().len(), 170);
    assert_eq!(rt; to_left.count(), 1);
    hand(rt, left, to_left);
    hand(rt, right, to_right);
}

/// They ask each other for their branch cells: the leaf at the root is parted between them.
fn ask<V: Visit>(rt: &impl Abort, left: &mut Rank<V>, right: &mut Rank<V>)
    requires left_stands { StandsIn V.Visit V.Acc.Seen worlds.two left.old }
    requires right_stands { StandsIn V.Visit V.Acc.Seen worlds.two right.old }
    requires left_ready { worlds.IsReady 0 (seat_of left.old) }
    requires right_ready { worlds.IsReady 1 (seat_of right.old) }
    ensures left_stands { StandsIn V.Visit V.Acc.Seen worlds.two left.new }
    ensures right_stands { StandsIn V.Visit V.Acc.Seen worlds.two right.new }
    ensures left_ready { worlds.IsReady 0 (seat_of left.new) }
    ensures right_ready { worlds.IsReady 1 (seat_of right.new) }
    ensures left_asks { worlds.Asks (seat_of left.new) (seat_of right.new) }
    ensures right_asks { worlds.Asks (seat_of right.new) (seat_of left.new) }
{
    advance(rt, left);
    advance(rt, right);
    let to_right = next(rt, left, Kind::Asks, 1);
    let to_left = next(rt, right, Kind::Asks, 0);
    quiet(rt, left);
    quiet(rt, right);
    assert!(rt;
        to_right.bytes() == b"\x02\x02\x01\x00\x00\x00\x04\x00\x00\x00\x00\x00\x00\x02".as_slice()
    );
    assert!(rt;
        to_left.bytes() == b"\x02\x02\x01\x00\x00\x00\x00\x00\x00\x00\x00\x00\x00\x02".as_slice()
    );
    hand(rt, left, to_left);
    hand(rt, right, to_right);
}

/// They answer each other: one body each, so 39 bytes.
fn answer<V: Visit>(rt: &impl Abort, left: &mut Rank<V>, right: &mut Rank<V>)
    requires left_stands { StandsIn V.Visit V.Acc.Seen worlds.two left.old }
    requires right_stands { StandsIn V.Visit V.Acc.Seen worlds.two right.old }
    requires left_ready { worlds.IsReady 0 (seat_of left.old) }
    requires right_ready { worlds.IsReady 1 (seat_of right.old) }
    requires left_asks { worlds.Asks (seat_of left.old) (seat_of right.old) }
    requires right_asks { worlds.Asks (seat_of right.old) (seat_of left.old) }
    ensures left_stands { StandsIn V.Visit V.Acc.Seen worlds.two left.new }
    ensures right_stands { StandsIn V.Visit V.Acc.Seen worlds.two right.new }
{
    advance(rt, left);
    advance(rt, right);
    let to_right = next(rt, left, Kind::Answers, 1);
    let to_left = next(rt, right, Kind::Answers, 0);
    quiet(rt, left);
    quiet(rt, right);
    assert_eq!(rt; to_right.bytes().len(), 39);
    assert_eq!(rt; to_left.bytes().len(), 39);
    hand(rt, left, to_left);
    hand(rt, right, to_right);
}

/// The results of two bodies on two ranks, in four rounds.
fn couple<V: Visit>(
    rt: &impl Abort,
    alloc: Global,
    visit: V,
    same: V,
) -> (WalkResult<V::Acc>, WalkResult<V::Acc>) {
    let mut left = first(rt, alloc, visit);
    let mut right = second(rt, alloc, same);
    assert_eq!(rt; left.me(), 0);
    assert_eq!(rt; right.me(), 1);
    tell(rt, &mut left, &mut right);
    ask(rt, &mut left, &mut right);
    answer(rt, &mut left, &mut right);
    assert!(rt; !left.finished());
    advance(rt, &mut left);
    advance(rt, &mut right);
    assert!(rt; left.finished());
    assert!(rt; right.finished());
    assert!(rt; !left.starved());
    let left = left.into_results().expect(rt, "memory");
    let right = right.into_results().expect(rt, "memory");
    (left, right)
}

/// What a new rank of three tells the two others in its first step.
fn tell_two<V: Visit>(
    rt: &impl Abort,
    rank: &mut Rank<V>,
    first: u32,
    second: u32,
) -> (Letter, Letter)
    requires stands { StandsIn V.Visit V.Acc.Seen worlds.five rank.old }
    requires new { IsNew (seat_of rank.old).me 3 (seat_of rank.old) }
    ensures stands { StandsIn V.Visit V.Acc.Seen worlds.five rank.new }
    ensures me { (seat_of rank.new).me ≡ (seat_of rank.old).me }
    ensures unheard { worlds.HeardNone (seat_of rank.new) }
    ensures first { worlds.IsTold (seat_of rank.old).me first result.0 }
    ensures second { worlds.IsTold (seat_of rank.old).me second result.1 }
{
    advance(rt, rank);
    let one = next(rt, rank, Kind::Branches, first);
    let two = next(rt, rank, Kind::Branches, second);
    quiet(rt, rank);
    (one, two)
}

/// A rank hears two others.
fn hear_two<V: Visit>(rt: &impl Abort, rank: &mut Rank<V>, one: Letter, two: Letter)
    requires stands { StandsIn V.Visit V.Acc.Seen worlds.five rank.old }
    requires unheard { worlds.HeardNone (seat_of rank.old) }
    requires one { worlds.IsTold one.from (seat_of rank.old).me one }
    requires two { worlds.IsTold two.from (seat_of rank.old).me two }
    requires differ { one.from ≢ two.from }
    ensures stands { StandsIn V.Visit V.Acc.Seen worlds.five rank.new }
{
    hand(rt, rank, one);
    hand(rt, rank, two);
}

/// The results of a crowd on one of three ranks, in two rounds.
fn trio<V: Visit>(
    rt: &impl Abort,
    alloc: Global,
    visit: V,
    same: V,
    also: V,
) -> (WalkResult<V::Acc>, WalkResult<V::Acc>, WalkResult<V::Acc>) {
    let mut a = crowded(rt, alloc, visit);
    let mut b = empty(rt, alloc, 1, same);
    let mut c = empty(rt, alloc, 2, also);
    let (a_to_b, a_to_c) = tell_two(rt, &mut a, 1, 2);
    let (b_to_a, b_to_c) = tell_two(rt, &mut b, 0, 2);
    let (c_to_a, c_to_b) = tell_two(rt, &mut c, 0, 1);
    assert_eq!(rt; a_to_b.bytes().len(), 170);
    assert_eq!(rt; b_to_a.bytes().len(), 6);
    hear_two(rt, &mut a, b_to_a, c_to_a);
    hear_two(rt, &mut b, c_to_b, a_to_b);
    hear_two(rt, &mut c, a_to_c, b_to_c);
    advance(rt, &mut a);
    advance(rt, &mut b);
    advance(rt, &mut c);
    assert!(rt; a.finished());
    assert!(rt; b.finished());
    assert!(rt; c.finished());
    let a = a.into_results().expect(rt, "memory");
    let b = b.into_results().expect(rt, "memory");
    let c = c.into_results().expect(rt, "memory");
    (a, b, c)
}

#[test]
fn one_rank_is_finished_at_once(rt: HostRuntime) {
    let alloc = rt.alloc();
    let rt = &rt;
    let got = alone(rt, alloc, gravity(rt, 0, 1, 1));
    assert_eq!(rt; got.accs.len(), 2);
    assert_eq!(rt; got.accs[0].ax, 3145725);
    assert_eq!(rt; got.accs[1].ax, -1048575);
    assert_eq!(rt; got.opened, 2);
    assert_eq!(rt; got.asks, 0);
    assert_eq!(rt; got.cells.len(), 1);
}

#[test]
fn two_ranks_write_to_each_other(rt: HostRuntime) {
    let alloc = rt.alloc();
    let rt = &rt;
    let (left, right) = couple(rt, alloc, gravity(rt, 0, 1, 1), gravity(rt, 0, 1, 1));
    assert_eq!(rt; left.accs.len(), 1);
    assert_eq!(rt; right.accs.len(), 1);
    assert_eq!(rt; left.accs[0].ax, 3145725);
    assert_eq!(rt; right.accs[0].ax, -1048575);
    assert_eq!(rt; left.opened, 1);
    assert_eq!(rt; right.opened, 1);
    assert_eq!(rt; left.asks, 1);
    assert_eq!(rt; right.asks, 1);
    assert_eq!(rt; left.cells.len(), 1);
    rank_stays_true::<ForceVisit>();
    results_rest_on_letters::<ForceVisit>();
    seat_tells_finished::<ForceVisit>();
}

#[test]
fn five_bodies_at_one_place_on_three_ranks(rt: HostRuntime) {
    let alloc = rt.alloc();
    let rt = &rt;
    let (a, b, c) = trio(
        rt,
        alloc,
        gravity(rt, 0, 1, 1),
        gravity(rt, 0, 1, 1),
        gravity(rt, 0, 1, 1),
    );
    assert_eq!(rt; a.accs.len(), 5);
    for acc in &a.accs {
        assert_eq!(rt; acc.ax, 0);
        assert_eq!(rt; acc.seen, 5);
    }
    assert_eq!(rt; a.opened, 5);
    assert_eq!(rt; a.asks, 0);
    assert_eq!(rt; a.cells.len(), 1);
    for empty in [b, c] {
        assert_eq!(rt; empty.accs.len(), 0);
        assert_eq!(rt; empty.opened, 0);
        assert_eq!(rt; empty.asks, 0);
        assert_eq!(rt; empty.cells.len(), 0);
    }
}
