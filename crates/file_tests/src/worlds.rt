// Runs over ranks on random small worlds, beside the plain walk of one tree and counts by filters.
ghost use Rattle.std.specs.Prelude.{◌<◌, ◌^◌};

use crate::plain::{Plain, plain_of};
use crate::reports::{ran, visit_of};
use crate::samples::{CUBE, row_at};
use body_set::BodySet;
use hot_model::ForceEngine;
use hot_units::{Acc3, Mail, RawRow, drawn, next_state};
use key_order::Ordered;
use plain_engine::PlainEngine;
use rank_walk::{Effort, Found, Sharing};
use run_report::RunReport;
use std::alloc::Global;
use std::process::Abort;
use std::thread::Threads;
use wire::{MemWire, Wire};

/// How many worlds are tried.
const WORLDS: u32 = 300;

/// Draws of the generator, one after another.
#[derive(Drop)]
struct Draws {
    state: u64,
}

impl Draws {
    /// The next number of 21 bits.
    fn next(&mut self) -> u32
        ensures small { result < 2 ^ 21 }
    {
        let number = drawn(self.state);
        self.state = next_state(self.state);
        number
    }
}

/// How a world is walked.
#[derive(Clone, Copy)]
struct Terms {
    num: u32,
    den: u32,
    eps: u32,
    ranks: u32,
    leaf: u32,
    mail: Mail,
}

/// A mail: each in its turn, and half of them by a seed.
fn draw_mail(draws: &mut Draws) -> Mail {
    match draws.next() % 6 {
        0 => Mail::Prompt,
        1 => Mail::Last,
        2 => Mail::Single,
        _ => Mail::Seeded(u64::from(draws.next())),
    }
}

fn draw_terms(draws: &mut Draws) -> Terms {
    let num = [0, 4, 7, 10, 20][(draws.next() % 5) as usize];
    let eps = [1, 256, 1_000_000][(draws.next() % 3) as usize];
    Terms {
        num,
        den: 10,
        eps,
        ranks: 1 + draws.next() % 8,
        leaf: 1 + draws.next() % 5,
        mail: draw_mail(draws),
    }
}

/// A coordinate at or behind a base, less than `spread` from it.
fn draw_at(draws: &mut Draws, base: u32, spread: u32) -> i128 {
    let offset = draws.next().checked_rem(spread).unwrap_or(0);
    i128::from(base.wrapping_add(offset) % 2_097_152)
}

/// A row: at one of eight places on the diagonal, near it or anywhere behind it, so often at the
/// place of another; heavy, and with a weight that is often 0.
fn draw_row(draws: &mut Draws, spread: u32) -> RawRow {
    let base = 262_144 * (draws.next() % 8);
    let x = draw_at(draws, base, spread);
    let y = draw_at(draws, base, spread);
    let z = draw_at(draws, base, spread);
    let mass = i128::from(1 + 2 * draws.next());
    row_at([x, y, z], mass, 0, i128::from(draws.next() % 4))
}

/// The bodies of a world, in key order.
fn draw_set(rt: &impl Abort, alloc: Global, draws: &mut Draws) -> Ordered {
    let mut set = BodySet::new(alloc, CUBE);
    let spread = match draws.next() % 3 {
        0 => 2,
        1 => 16,
        _ => 2_097_152,
    };
    for _body in 0..draws.next() % 11 {
        let row = draw_row(draws, spread);
        set.push(&row).expect(rt, "a row in the cube");
    }
    set.order(alloc).expect(rt, "memory")
}

/// The forces on the bodies by the plain walk of one tree.
fn plain_forces(rt: &impl Abort, alloc: Global, set: &Ordered, terms: Terms) -> Vec<Acc3> {
    let engine = PlainEngine::new(terms.num, terms.den, terms.eps, terms.leaf);
    let mut engine = engine.expect(rt, "numbers within their limits");
    engine
        .forces(alloc, &mut (), set.bodies())
        .expect(rt, "memory")
}

fn same_forces(rt: &impl Abort, found: &[Acc3], wanted: &[Acc3]) {
    assert_eq!(rt; found.len(), wanted.len());
    for (one, other) in found.iter().zip(wanted.iter()) {
        assert!(rt; one.seen == other.seen);
        assert!(rt; [one.ax, one.ay, one.az] == [other.ax, other.ay, other.az]);
    }
}

fn same_effort(rt: &impl Abort, effort: &Effort, plain: &Plain, rank: usize) {
    assert_eq!(rt; effort.rank as usize, rank);
    assert_eq!(rt; effort.bodies, plain.bodies_of(rank));
    assert_eq!(rt; effort.opened, plain.opened_by_rank(rank));
    assert_eq!(rt; effort.asks, plain.needed_by_rank(rt, rank));
}

/// What the ranks did is what the filters say.
fn same_numbers(rt: &impl Abort, found: &Found<Acc3>, plain: &Plain, ranks: u32) {
    assert_eq!(rt; found.efforts.len(), ranks as usize);
    assert!(rt; found.rounds <= plain.bound(ranks));
    for (rank, effort) in found.efforts.iter().enumerate() {
        same_effort(rt, effort, plain, rank);
    }
    for key in &found.opened {
        assert!(rt; plain.opens(*key));
    }
    for key in plain.opened_keys() {
        assert!(rt; found.opened.contains(key));
    }
}

/// What is told of all ranks is what the filters say, and letters and rounds are those of the wire.
fn same_totals(rt: &impl Abort, report: &RunReport, plain: &Plain, ranks: u32, wire: &MemWire) {
    assert_eq!(rt; report.cells(), plain.met());
    assert_eq!(rt; report.bound(), u128::from(plain.bound(ranks)));
    assert_eq!(rt; report.letters(), wire.log().letters());
    assert_eq!(rt; report.rounds(), wire.log().rounds());
    assert_eq!(rt; wire.pending(), 0);
}

/// One world under one mail.
fn walk_world<R: Threads + Sync + Abort>(rt: &R, alloc: Global, draws: &mut Draws) {
    let terms = draw_terms(draws);
    let set = draw_set(rt, alloc, draws);
    assert!(rt; 1 <= terms.ranks && terms.ranks <= 8 && 1 <= terms.leaf && terms.leaf <= 5);
    let sharing = Sharing {
        ranks: terms.ranks,
        leaf: terms.leaf,
        mail: terms.mail,
    };
    let visit = visit_of(rt, terms.num, terms.den, terms.eps);
    let (report, found, wire) = ran(rt, alloc, &set, sharing, visit);
    same_forces(rt, &found.accs, &plain_forces(rt, alloc, &set, terms));
    let plain = plain_of(rt, alloc, &set, sharing, visit);
    same_numbers(rt, &found, &plain, terms.ranks);
    same_totals(rt, &report, &plain, terms.ranks, &wire);
}

#[test]
fn small_worlds(rt: HostRuntime) {
    let alloc = rt.alloc();
    let mut draws = Draws { state: 17 };
    for _world in 0..WORLDS {
        walk_world(&rt, alloc, &mut draws);
    }
}
