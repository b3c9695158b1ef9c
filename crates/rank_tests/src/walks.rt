// Two bodies on two ranks, by hand: the root is a leaf that both ranks share, so each body opens it
// and needs the branch of the other rank.
use crate::samples::gravity;
use body_set::BodySet;
use hot_units::{Acc3, Cube, Mail, RawRow};
use key_order::Ordered;
use rank_walk::{Effort, Found, Sharing, place_by_row, walk_over_ranks};
use std::alloc::Global;
use std::process::Abort;
use std::thread::Threads;
use wire::{MemWire, OpenGate, Wire};

const CUBE: Cube = Cube {
    bits: 21,
    x0: 0,
    y0: 0,
    z0: 0,
};

/// The first row is a body of mass 3 at 4 0 0, the second one of mass 1 at 0 0 0.
fn two_bodies(rt: &impl Abort, alloc: Global) -> Ordered {
    let mut set = BodySet::new(alloc, CUBE);
    for (x, mass) in [(4, 3), (0, 1)] {
        let row = RawRow {
            x,
            y: 0,
            z: 0,
            mass,
            ident: x,
            work: 1,
            vx: None,
            vy: None,
            vz: None,
        };
        set.push(&row).expect(rt, "a row in the cube");
    }
    set.order(alloc).expect(rt, "memory")
}

/// What two ranks find at ratio 0 and softening 1. Letters come promptly: branches, asks, answers,
/// and a last round.
fn found_by_two<R: Threads + Sync + Abort>(rt: &R, alloc: Global, set: &Ordered) -> Found<Acc3> {
    let visit = gravity(rt, 0, 1, 1);
    let sharing = Sharing {
        ranks: 2,
        leaf: 16,
        mail: Mail::Prompt,
    };
    let mut wire = MemWire::new(alloc).expect(rt, "memory");
    let found = walk_over_ranks(rt, alloc, set, sharing, visit, &mut wire, &OpenGate);
    assert_eq!(rt; wire.pending(), 0);
    assert_eq!(rt; wire.log().rounds(), 4);
    found.expect(rt, "memory")
}

fn is_one_of_two(rt: &impl Abort, effort: &Effort, rank: usize) {
    assert_eq!(rt; effort.rank as usize, rank);
    assert_eq!(rt; effort.bodies, 1);
    assert_eq!(rt; effort.opened, 1);
    assert_eq!(rt; effort.asks, 1);
}

/// The forces, each at the row of its body.
fn by_row(rt: &impl Abort, alloc: Global, set: &Ordered, accs: Vec<Acc3>) -> Vec<Acc3> {
    let bodies = set.bodies();
    assert_eq!(rt; bodies.len(), accs.len());
    place_by_row(alloc, bodies, accs).expect(rt, "memory")
}

#[test]
fn two_bodies_on_two_ranks(rt: HostRuntime) {
    let alloc = rt.alloc();
    let rt = &rt;
    let set = two_bodies(rt, alloc);
    let found = found_by_two(rt, alloc, &set);
    assert_eq!(rt; found.accs.len(), 2);
    assert_eq!(rt; found.accs[0].ax, 3145725);
    assert_eq!(rt; found.accs[1].ax, -1048575);
    assert_eq!(rt; found.efforts.len(), 2);
    for (rank, effort) in found.efforts.iter().enumerate() {
        is_one_of_two(rt, effort, rank);
    }
    for key in &found.opened {
        assert_eq!(rt; *key, 1);
    }
    assert!(rt; !found.opened.is_empty());
    assert_eq!(rt; found.rounds, 4);
    let placed = by_row(rt, alloc, &set, found.accs);
    assert_eq!(rt; placed.len(), 2);
    assert_eq!(rt; placed[0].ax, -1048575);
    assert_eq!(rt; placed[1].ax, 3145725);
}
