// Whole runs of a few bodies: of two on two ranks, and of five at one point on three.
ghost use Rattle.std.specs.Prelude.{◌≡◌};

use crate::samples::{crowded, empty, first, gravity, second};
use defer_walk::WalkResult;
use hot_model::Visit;
use hot_units::Mail;
use round_runner::run;
use std::alloc::Global;
use std::process::Abort;
use std::rt::HostRuntime;
use std::thread::Threads;
use wire::{Gate, MeetGate, MemWire, OpenGate, Wire};

/// The results of both after a run with a mail that ends in so many rounds.
fn whole<R: Threads + Sync + Abort, V: Visit, G: Gate>(
    rt: &R,
    alloc: Global,
    visit: V,
    same: V,
    gate: &G,
    mail: Mail,
    rounds: u64,
) -> (WalkResult<V::Acc>, WalkResult<V::Acc>)
    requires same { same ≡ visit }
{
    let mut ranks = Vec::new(alloc);
    ranks.push(first(rt, alloc, visit)).expect(rt, "memory");
    ranks.push(second(rt, alloc, same)).expect(rt, "memory");
    let mut wire = MemWire::new(alloc).expect(rt, "memory");
    wire.begin(mail);
    let ended = run(rt, alloc, &mut ranks, &mut wire, gate).expect(rt, "memory");
    assert_eq!(rt; ended, rounds);
    assert_eq!(rt; wire.log().letters(), 6);
    let two = ranks.pop().expect(rt, "a rank");
    let one = ranks.pop().expect(rt, "a rank");
    assert!(rt; one.finished());
    assert!(rt; two.finished());
    let one = one.into_results().expect(rt, "memory");
    let two = two.into_results().expect(rt, "memory");
    (one, two)
}

/// The rounds under a seed come from the draws, by hand: 6 letters are taken in 4 rounds, and the
/// fifth is the last one.
#[test]
fn two_ranks_pull_each_other(rt: HostRuntime) {
    let alloc = rt.alloc();
    let rt = &rt;
    let visit = gravity(rt, 0, 1, 1);
    let cases = [
        (Mail::Prompt, 4),
        (Mail::Last, 4),
        (Mail::Single, 7),
        (Mail::Seeded(5), 5),
    ];
    for (mail, rounds) in cases {
        let (one, two) = whole(rt, alloc, visit, visit, &OpenGate, mail, rounds);
        assert_eq!(rt; one.accs.len(), 1);
        assert_eq!(rt; two.accs.len(), 1);
        assert_eq!(rt; one.accs[0].ax, 3145725);
        assert_eq!(rt; two.accs[0].ax, -1048575);
        assert_eq!(rt; one.opened, 1);
        assert_eq!(rt; one.asks, 1);
        assert_eq!(rt; two.asks, 1);
    }
}

/// Two ranks are in their steps at one time.
#[test]
fn two_ranks_meet(rt: HostRuntime) {
    let alloc = rt.alloc();
    let rt = &rt;
    let visit = gravity(rt, 0, 1, 1);
    let gate = MeetGate::new(1_000_000_000);
    let (_one, _two) = whole(rt, alloc, visit, visit, &gate, Mail::Prompt, 4);
    assert!(rt; gate.met());
}

/// The branch is the root, and no rank asks for anything: each tells its branches to the two
/// others, and then all end.
#[test]
fn three_ranks_with_five_bodies_at_one_point(rt: HostRuntime) {
    let alloc = rt.alloc();
    let rt = &rt;
    let visit = gravity(rt, 0, 1, 1);
    let mut ranks = Vec::new(alloc);
    ranks.push(crowded(rt, alloc, visit)).expect(rt, "memory");
    ranks.push(empty(rt, alloc, 1, visit)).expect(rt, "memory");
    ranks.push(empty(rt, alloc, 2, visit)).expect(rt, "memory");
    let mut wire = MemWire::new(alloc).expect(rt, "memory");
    wire.begin(Mail::Prompt);
    let rounds = run(rt, alloc, &mut ranks, &mut wire, &OpenGate).expect(rt, "memory");
    assert_eq!(rt; rounds, 2);
    assert_eq!(rt; wire.log().letters(), 6);
    for rank in ranks {
        let me = rank.me();
        assert!(rt; rank.finished());
        let found = rank.into_results().expect(rt, "memory");
        let many = if me == 0 { 5 } else { 0 };
        assert_eq!(rt; found.accs.len(), many);
        assert_eq!(rt; found.opened, many as u64);
        assert_eq!(rt; found.asks, 0);
        for acc in &found.accs {
            assert_eq!(rt; (acc.seen, acc.ax, acc.ay, acc.az), (5, 0, 0, 0));
        }
    }
}
