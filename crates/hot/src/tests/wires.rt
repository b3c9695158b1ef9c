// Runs over other wires, and how many rounds runs take.
use super::ranks::{ROW, ROW_PULLS, SINGLE_REPORT, TWO_RANKS};
use super::{AMPLE, MASSES, PAIR, PLACES, PULLS, call, call_over, check, plain_file};
use crate::Status;
use std::alloc::Global;
use std::process::Abort;
use std::thread::Threads;
use wire::{Entry, Log, MemWire, OpenGate, StarveWire};

/// The bytes of all letters that were posted.
fn bytes_posted(log: &Log) -> usize {
    let mut bytes: usize = 0;
    for i in 0..log.len() {
        if let Some(Entry::Posted(letter)) = log.at(i) {
            bytes = bytes.saturating_add(letter.bytes().len());
        }
    }
    bytes
}

/// The two bodies on two ranks, with the report, over a wire that starves a rank. It gives one
/// letter a round. Each rank tells one branch (170 bytes), asks for one cell (14) and answers with
/// one body (39).
fn starve_pair<R: Threads + Sync + Abort>(rt: &R, alloc: Global, rank: u32) {
    let input = plain_file(rt, alloc, MASSES, b"2", &PAIR);
    let mut wire = StarveWire::new(alloc, rank).expect(rt, "memory");
    let words = "forces --eps 1 --theta 0/1 --ranks 2 --report";
    let ended = call_over(rt, alloc, words, &input, AMPLE, &mut wire, &OpenGate);
    check(rt, &ended, Status::Done, PULLS, SINGLE_REPORT);
    assert_eq!(rt; bytes_posted(wire.log()), 2 * (170 + 14 + 39));
}

#[test]
fn a_rank_is_starved(rt: HostRuntime) {
    let alloc = rt.alloc();
    for rank in [0, 1, u32::MAX] {
        starve_pair(&rt, alloc, rank);
    }
    let input = plain_file(&rt, alloc, MASSES, b"2", &PAIR);
    let mut wire = MemWire::new(alloc).expect(&rt, "memory");
    let ended = call_over(&rt, alloc, TWO_RANKS, &input, AMPLE, &mut wire, &OpenGate);
    check(&rt, &ended, Status::Done, PULLS, b"");
    assert_eq!(&rt; bytes_posted(wire.log()), 2 * (170 + 14 + 39));
}

#[test]
fn three_bodies_over_two_wires(rt: HostRuntime) {
    let alloc = rt.alloc();
    let input = plain_file(&rt, alloc, PLACES, b"3", &ROW);
    let words = "forces --ranks 64";
    let mut starving = StarveWire::new(alloc, 21).expect(&rt, "memory");
    let ended = call_over(&rt, alloc, words, &input, AMPLE, &mut starving, &OpenGate);
    check(&rt, &ended, Status::Done, ROW_PULLS, b"");
    let mut prompt = MemWire::new(alloc).expect(&rt, "memory");
    let ended = call_over(&rt, alloc, words, &input, AMPLE, &mut prompt, &OpenGate);
    check(&rt, &ended, Status::Done, ROW_PULLS, b"");
    // one letter a round, and then one round more; else branches, asks, answers and the last round
    assert_eq!(&rt;
        (starving.log().letters(), starving.log().rounds()),
        (4044, 4045)
    );
    assert_eq!(&rt; (prompt.log().letters(), prompt.log().rounds()), (4044, 4));
}

/// Two pairs of bodies at opposite corners of the cube, each parted on the last level only.
const CHAIN: [i32; 12] = [
    0, 0, 0, 1, 0, 0, 2_097_150, 2_097_151, 2_097_151, 2_097_151, 2_097_151, 2_097_151,
];

const CHAIN_PULLS: &[u8] =
    b"# hot forces 1\n0 5931651 0 0\n1 -5931651 0 0\n2 5931651 0 0\n3 -5931651 0 0\n# end 4\n";

/// Each rank has one branch, on level 1, and asks for the 22 cells of the other that have bodies:
/// level by level, the last two at once. So there are 21 asks each way, and as many answers; the
/// last asks come in round 42, the last answers in round 43, and round 44 posts nothing.
const CHAIN_REPORT: &[u8] =
    b"# hot report 1\nrank 0 bodies 2 opened 90 asks 22\nrank 1 bodies 2 opened 90 asks 22\nbranch 8 rank 0\nbranch 15 rank 1\nletters 86 rounds 44 cells 45 bound 93\n# end report\n";

#[test]
fn the_deepest_chain_takes_all_rounds(rt: HostRuntime) {
    let alloc = rt.alloc();
    let input = plain_file(&rt, alloc, PLACES, b"4", &CHAIN);
    for words in [
        "forces --theta 0/1 --leaf 1 --ranks 2 --report",
        "forces --theta 0/1 --leaf 1 --ranks 2 --report --mail last",
    ] {
        let ended = call(&rt, alloc, words, &input, AMPLE);
        check(&rt, &ended, Status::Done, CHAIN_PULLS, CHAIN_REPORT);
    }
}

#[test]
fn many_bodies_take_few_rounds(rt: HostRuntime) {
    let alloc = rt.alloc();
    for words in [
        "sample --bodies 2000 --seed 1 --ranks 8 --mail prompt",
        "sample --bodies 2000 --seed 1 --ranks 8 --mail last",
    ] {
        let mut wire = MemWire::new(alloc).expect(&rt, "memory");
        let ended = call_over(&rt, alloc, words, b"", AMPLE, &mut wire, &OpenGate);
        assert_eq!(&rt; ended.status, Status::Done);
        assert!(&rt; wire.log().rounds() <= 44);
    }
}
