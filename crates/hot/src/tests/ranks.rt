// Runs over ranks, and their reports.
use super::{
    AMPLE, CUT, Case, FileCase, Limits, MASSES, PAIR, PLACES, PULLS, call, call_at, check,
    check_calls, check_files, plain_file,
};
use crate::Status;
use std::alloc::Global;
use std::process::Abort;
use wire::MeetGate;

/// Two bodies on two ranks, each of which opens every cell.
pub(super) const TWO_RANKS: &str = "forces --eps 1 --theta 0/1 --ranks 2";

/// What is told of the two bodies on two ranks.
pub(super) const PAIR_REPORT: &[u8] =
    b"# hot report 1\nrank 0 bodies 1 opened 1 asks 1\nrank 1 bodies 1 opened 1 asks 1\nbranch 144115188075855872 rank 0\nbranch 144115188075855876 rank 1\nletters 6 rounds 4 cells 3 bound 9\n# end report\n";

/// The same where one letter is taken in each round.
pub(super) const SINGLE_REPORT: &[u8] =
    b"# hot report 1\nrank 0 bodies 1 opened 1 asks 1\nrank 1 bodies 1 opened 1 asks 1\nbranch 144115188075855872 rank 0\nbranch 144115188075855876 rank 1\nletters 6 rounds 7 cells 3 bound 9\n# end report\n";

/// Three bodies in a row, and their forces.
pub(super) const ROW: [i32; 9] = [0, 0, 0, 1, 0, 0, 2, 0, 0];

pub(super) const ROW_PULLS: &[u8] =
    b"# hot forces 1\n0 8932854 0 0\n1 0 0 0\n2 -8932854 0 0\n# end 3\n";

#[test]
fn forces_under_each_mail(rt: HostRuntime) {
    let alloc = rt.alloc();
    let input = plain_file(&rt, alloc, MASSES, b"2", &PAIR);
    for words in [
        TWO_RANKS,
        "forces --eps 1 --theta 0/1 --ranks 2 --mail prompt",
        "forces --eps 1 --theta 0/1 --ranks 2 --mail last",
        "forces --eps 1 --theta 0/1 --ranks 2 --mail single",
        "forces --eps 1 --theta 0/1 --ranks 2 --mail 5",
    ] {
        let ended = call(&rt, alloc, words, &input, AMPLE);
        check(&rt, &ended, Status::Done, PULLS, b"");
    }
}

#[test]
fn reports(rt: HostRuntime) {
    let alloc = rt.alloc();
    let twins = [
        0, 0, 0, 1, 1_048_576, 0, 0, 4_194_304, 1_048_576, 0, 0, 4_194_304,
    ];
    let point = [5; 15];
    let cases: [FileCase<'_>; 6] = [
        (
            "forces --eps 1 --theta 0/1 --ranks 2 --report",
            MASSES,
            b"2",
            &PAIR,
            Status::Done,
            PULLS,
            PAIR_REPORT,
        ),
        (
            "forces --eps 1 --theta 0/1 --report --ranks 2 --mail last",
            MASSES,
            b"2",
            &PAIR,
            Status::Done,
            PULLS,
            PAIR_REPORT,
        ),
        (
            "forces --eps 1 --theta 0/1 --ranks 2 --mail single --report",
            MASSES,
            b"2",
            &PAIR,
            Status::Done,
            PULLS,
            SINGLE_REPORT,
        ),
        (
            "forces --eps 1 --leaf 1 --theta 1/1 --report",
            MASSES,
            b"3",
            &twins,
            Status::Done,
            b"# hot forces 1\n0 127 0 0\n1 0 0 0\n2 0 0 0\n# end 3\n",
            b"# hot report 1\nrank 0 bodies 3 opened 49 asks 0\nbranch 1 rank 0\nletters 0 rounds 1 cells 23 bound 1\n# end report\n",
        ),
        (
            "forces --ranks 3 --report",
            PLACES,
            b"5",
            &point,
            Status::Done,
            b"# hot forces 1\n0 0 0 0\n1 0 0 0\n2 0 0 0\n3 0 0 0\n4 0 0 0\n# end 5\n",
            b"# hot report 1\nrank 0 bodies 5 opened 5 asks 0\nrank 1 bodies 0 opened 0 asks 0\nrank 2 bodies 0 opened 0 asks 0\nbranch 1 rank 0\nletters 6 rounds 2 cells 1 bound 11\n# end report\n",
        ),
        // no bodies
        (
            "forces --ranks 2 --report",
            PLACES,
            b"0",
            &[],
            Status::Done,
            b"# hot forces 1\n# end 0\n",
            b"# hot report 1\nrank 0 bodies 0 opened 0 asks 0\nrank 1 bodies 0 opened 0 asks 0\nletters 2 rounds 2 cells 0 bound 3\n# end report\n",
        ),
    ];
    check_files(&rt, alloc, &cases);
}

/// Adds the lines of ranks without bodies, from one rank up to another.
fn add_idle_ranks(rt: &impl Abort, alloc: Global, text: &mut Vec<u8>, from: u32, to: u32) {
    for rank in from..to {
        let line = format!(in alloc; "rank {rank} bodies 0 opened 0 asks 0\n").expect(rt, "memory");
        text.extend_from_slice(line.as_bytes()).expect(rt, "memory");
    }
}

/// What is told of the three bodies on 64 ranks. Each is alone on its rank, opens the root, which
/// is a leaf, and asks for the branches of the two others.
fn row_report(rt: &impl Abort, alloc: Global) -> Vec<u8> {
    let ranks: [(&[u8], u32, u32); 3] = [
        (b"# hot report 1\nrank 0 bodies 1 opened 1 asks 2\n", 1, 21),
        (b"rank 21 bodies 1 opened 1 asks 2\n", 22, 42),
        (b"rank 42 bodies 1 opened 1 asks 2\n", 43, 64),
    ];
    let mut text = Vec::new(alloc);
    for (line, from, to) in ranks {
        text.extend_from_slice(line).expect(rt, "memory");
        add_idle_ranks(rt, alloc, &mut text, from, to);
    }
    text.extend_from_slice(ROW_BRANCHES).expect(rt, "memory");
    text
}

/// How that report ends.
const ROW_BRANCHES: &[u8] =
    b"branch 1152921504606846980 rank 42\nbranch 9223372036854775808 rank 0\nbranch 9223372036854775812 rank 21\nletters 4044 rounds 4 cells 4 bound 4537\n# end report\n";

#[test]
fn as_many_ranks_as_there_may_be(rt: HostRuntime) {
    let alloc = rt.alloc();
    let input = plain_file(&rt, alloc, PLACES, b"3", &ROW);
    let told = row_report(&rt, alloc);
    let words = "forces --ranks 64 --report";
    let full = Limits { room: 20, ..AMPLE };
    let cases: [Case<'_>; 2] = [
        (words, &input, AMPLE, Status::Done, ROW_PULLS, &told),
        // an output that is full is not followed by a report
        (
            words,
            &input,
            full,
            Status::WriteFault,
            b"# hot forces 1\n0 893",
            CUT,
        ),
    ];
    check_calls(&rt, alloc, &cases);
}

/// Ranks that step one after another never meet: the gate then lets the first one go at its limit.
#[test]
fn program_meets(rt: HostRuntime) {
    let alloc = rt.alloc();
    let input = plain_file(&rt, alloc, MASSES, b"2", &PAIR);
    let gate = MeetGate::new(1_000_000_000);
    let ended = call_at(&rt, alloc, TWO_RANKS, &input, AMPLE, &gate);
    check(&rt, &ended, Status::Done, PULLS, b"");
    assert!(rt; gate.met());
}
