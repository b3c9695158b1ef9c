// The report of two bodies on two ranks, worked by hand: the root is a leaf that both ranks share,
// so each body opens it and needs the branch of the other rank.
use crate::samples::{Row, set_of};
use fixed_kernel::{Eps, ForceVisit, Ratio};
use hot_io::MemSink;
use hot_units::{Acc3, Mail};
use key_order::Ordered;
use rank_walk::{Found, Sharing, walk_over_ranks};
use run_report::{RunReport, Sample, report_text, sample_text};
use std::alloc::Global;
use std::process::Abort;
use std::thread::Threads;
use wire::{MemWire, OpenGate, Wire};

/// What is told with prompt mail.
const REPORT: &[u8] =
    b"# hot report 1\nrank 0 bodies 1 opened 1 asks 1\nrank 1 bodies 1 opened 1 asks 1\nbranch 144115188075855872 rank 0\nbranch 144115188075855876 rank 1\nletters 6 rounds 4 cells 3 bound 9\n# end report\n";

const SAMPLE: &[u8] =
    b"sample bodies 2 seed 7 ranks 2 opened 2 asks 2 cells 3 letters 6 rounds 4 sum 2097150 0 0\n";

/// A body of mass 1 at 0 0 0 and one of mass 3 at 4 0 0, of the same work weight.
const TWO_BODIES: [Row; 2] = [([0, 0, 0], 1, 1), ([4, 0, 0], 3, 1)];

/// A run of the ranks over a set: what it shows, what it found, and its wire.
pub fn ran<R: Threads + Sync + Abort>(
    rt: &R,
    alloc: Global,
    set: &Ordered,
    sharing: Sharing,
    visit: ForceVisit,
) -> (RunReport, Found<Acc3>, MemWire) {
    let mut wire = MemWire::new(alloc).expect(rt, "memory");
    let found = walk_over_ranks(rt, alloc, set, sharing, visit, &mut wire, &OpenGate);
    let found = found.expect(rt, "memory");
    let report = RunReport::of(alloc, set, sharing, &found, wire.letters()).expect(rt, "memory");
    (report, found, wire)
}

/// The visit of a ratio and a softening.
pub fn visit_of(rt: &impl Abort, num: u32, den: u32, eps: u32) -> ForceVisit {
    let ratio = Ratio::new(num, den).expect(rt, "a ratio");
    ForceVisit::new(ratio, Eps::new(eps).expect(rt, "a softening"))
}

/// What a run on the two bodies shows, at ratio 0 and softening 1, with the forces in key order.
fn two_on_two<R: Threads + Sync + Abort>(
    rt: &R,
    alloc: Global,
    mail: Mail,
) -> (RunReport, Found<Acc3>) {
    let set = set_of(rt, alloc, &TWO_BODIES);
    let sharing = Sharing {
        ranks: 2,
        leaf: 16,
        mail,
    };
    let (report, found, _wire) = ran(rt, alloc, &set, sharing, visit_of(rt, 0, 1, 1));
    (report, found)
}

/// The report in a sink of so much room: all of it, or the front that has room, and a failure.
fn report_is(rt: &impl Abort, alloc: Global, report: &RunReport, chunk: usize, room: usize) {
    assert!(rt; 1 <= chunk && room <= 1000);
    let mut err = MemSink::new(alloc, chunk, room as u64).expect(rt, "memory");
    let outcome = report_text(&mut err, report);
    assert_eq!(rt; outcome.is_err(), room < REPORT.len());
    assert_eq!(rt; err.written(), &REPORT[..room.min(REPORT.len())]);
}

#[test]
fn a_report_line_by_line(rt: HostRuntime) {
    let (report, _found) = two_on_two(&rt, rt.alloc(), Mail::Prompt);
    report_is(&rt, rt.alloc(), &report, 11, 1000);
    for room in 0..REPORT.len() {
        report_is(&rt, rt.alloc(), &report, 1000, room);
    }
}

#[test]
fn what_a_report_holds(rt: HostRuntime) {
    let (report, _found) = two_on_two(&rt, rt.alloc(), Mail::Single);
    for (rank, effort) in report.efforts().iter().enumerate() {
        assert!(rt; (effort.rank as usize, effort.bodies) == (rank, 1));
        assert!(rt; (effort.opened, effort.asks) == (1, 1));
    }
    let branches = report.branches();
    assert!(rt; report.efforts().len() == 2 && branches.len() == 2);
    assert!(rt; (branches[0].rank, branches[1].rank) == (0, 1));
    assert!(rt; (report.letters(), report.rounds()) == (6, 7));
    assert!(rt; (report.cells(), report.bound()) == (3, 9));
}

/// The line of a sample in a sink of so much room: all of it, or a front and a failure.
fn line_is(rt: &impl Abort, alloc: Global, sample: &Sample, chunk: usize, room: usize) {
    assert!(rt; 1 <= chunk && room <= 1000);
    let mut out = MemSink::new(alloc, chunk, room as u64).expect(rt, "memory");
    let outcome = sample_text(&mut out, sample);
    assert_eq!(rt; outcome.is_err(), room < SAMPLE.len());
    assert_eq!(rt; out.written(), &SAMPLE[..room.min(SAMPLE.len())]);
}

/// The sample of that run.
fn sample_of<R: Threads + Sync + Abort>(rt: &R, alloc: Global) -> Sample {
    let (report, found) = two_on_two(rt, alloc, Mail::Prompt);
    assert!(rt; found.accs.len() == 2);
    Sample::of(2, 7, report, &found.accs)
}

#[test]
fn a_line_of_a_sample(rt: HostRuntime) {
    let sample = sample_of(&rt, rt.alloc());
    line_is(&rt, rt.alloc(), &sample, 13, 200);
    for room in 0..SAMPLE.len() {
        line_is(&rt, rt.alloc(), &sample, 1000, room);
    }
}
