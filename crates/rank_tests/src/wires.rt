// Worked cases: the order of letters and of log entries under each mail, and who meets at a gate.
ghost use Rattle.std.specs.Prelude.{◌≡◌, ◌≤◌, ◌<◌, ◌+◌, ◌⊎◌, [], length, true, false};
ghost use Rattle.cell_mail.specs.Letters.{AreRanks};
ghost use Rattle.wire.specs.Desk.{letters_in, rounds_in};
ghost use Rattle.wire.specs.declared.wire.Turn.TheVariants as turns;

use cell_mail::{Kind, Letter};
use hot_units::Mail;
use std::alloc::Global;
use std::process::Abort;
use std::thread::join;
use wire::{Entry, Gate, Log, MeetGate, MemWire, OpenGate, Wire};

/// A branches letter without items.
const NO_BRANCHES: [u8; 6] = [2, 1, 0, 0, 0, 0];

/// A letter that asks for one cell, of this key.
const ONE_ASK: [u8; 14] = [2, 2, 1, 0, 0, 0, 4, 0, 0, 0, 0, 0, 0, 2];

const ASKED: u64 = 0x0200_0000_0000_0004;

/// What stands for the end of a round among the senders of letters.
const ENDED: u32 = 99;

/// The senders of five letters from the ranks 0 to 4, in the order in which they are taken. The
/// first states of the generator from seed 0 give 164015 (at place 0 of 5), true, 1269455 (3 of 4),
/// true, 804521 (2 of 3), false, 165906 (0 of 2), true and 1012491 (0 of 1).
const ORDERS: [(Mail, &[u32]); 6] = [
    (Mail::Prompt, &[0, 1, 2, 3, 4, ENDED]),
    (Mail::Last, &[4, 3, 2, 1, 0, ENDED]),
    (
        Mail::Single,
        &[0, ENDED, 1, ENDED, 2, ENDED, 3, ENDED, 4, ENDED],
    ),
    (Mail::Seeded(0), &[0, 4, 3, ENDED, 1, 2, ENDED]),
    (Mail::Seeded(1), &[3, ENDED, 0, 1, ENDED, 2, 4, ENDED]),
    (
        Mail::Seeded(u64::MAX),
        &[3, ENDED, 1, 0, ENDED, 2, ENDED, 4, ENDED],
    ),
];

/// A new wire with this mail.
fn begun(rt: &impl Abort, alloc: Global, mail: Mail) -> MemWire
    ensures turn { result.turn ≡ turns.Free }
    ensures log { result.log ≡ [] }
{
    let mut wire = MemWire::new(alloc).expect(rt, "memory");
    wire.begin(mail);
    wire
}

/// Posts a letter of these bytes.
fn post_to(rt: &impl Abort, alloc: Global, wire: &mut MemWire, from: u32, to: u32, bytes: &[u8])
    requires ranks { AreRanks from to }
    ensures letters { letters_in wire.new.log ≡ letters_in wire.old.log + 1 }
    ensures rounds { rounds_in wire.new.log ≡ rounds_in wire.old.log }
    ensures turn { wire.new.turn ≡ wire.old.turn }
{
    let letter = Letter::from_bytes(alloc, from, to, bytes).expect(rt, "a letter");
    match wire.post(letter) {
        Ok(()) => {}
        Err(_refused) => panic!(rt; "memory"),
    }
}

/// The sender and the receiver of a letter.
fn ranks_of(letter: Letter) -> (u32, u32) {
    (letter.from(), letter.to())
}

/// Takes a letter if one is pending, and adds its sender; whether another one may be taken.
fn take_one<W: Wire>(rt: &impl Abort, wire: &mut W, senders: &mut Vec<u32>) -> bool
    requires free { (W.desk wire.old).turn ≡ turns.Free }
    ensures letters { letters_in (W.desk wire.new).log ≡ letters_in (W.desk wire.old).log }
    ensures rounds { rounds_in (W.desk wire.new).log ≡ rounds_in (W.desk wire.old).log }
    ensures free { result ≡ true → (W.desk wire.new).turn ≡ turns.Free }
    ensures fewer { result ≡ true
        → length (W.desk wire.new).pending < length (W.desk wire.old).pending }
    ensures over { result ≡ false
        → ((W.desk wire.new).pending ≡ []) ⊎ ((W.desk wire.new).turn ≡ turns.Shut) }
{
    let Some(letter) = wire.take() else {
        return false;
    };
    let (from, _to) = ranks_of(letter);
    senders.push(from).expect(rt, "memory");
    if wire.pending() == 0 {
        return false;
    }
    wire.more()
}

/// Ends a round in which letters are taken as long as the wire gives them, and adds their senders.
fn end_round<W: Wire>(rt: &impl Abort, wire: &mut W, senders: &mut Vec<u32>)
    requires free { (W.desk wire.old).turn ≡ turns.Free }
    requires room { rounds_in (W.desk wire.old).log ≤ letters_in (W.desk wire.old).log }
    ensures free { (W.desk wire.new).turn ≡ turns.Free }
{
    loop {
        let more = take_one(rt, wire, senders);
        if !more {
            wire.round();
            senders.push(ENDED).expect(rt, "memory");
            return;
        }
    }
}

/// The senders of all letters on a wire, in at most five rounds.
fn senders_of(rt: &impl Abort, alloc: Global, wire: &mut MemWire) -> Vec<u32>
    requires free { wire.old.turn ≡ turns.Free }
{
    let mut senders = Vec::new(alloc);
    for _ in 0..5 {
        if wire.pending() == 0 || wire.letters() < wire.log().rounds() {
            break;
        }
        end_round(rt, wire, &mut senders);
    }
    senders
}

/// A wire with five letters from the ranks 0 to 4.
fn with_five(rt: &impl Abort, alloc: Global, mail: Mail) -> MemWire
    ensures turn { result.turn ≡ turns.Free }
{
    let mut wire = begun(rt, alloc, mail);
    for from in 0..5 {
        post_to(rt, alloc, &mut wire, from, 63, &NO_BRANCHES);
    }
    wire
}

#[test]
fn each_mail_gives_its_order(rt: HostRuntime) {
    let alloc = rt.alloc();
    for (at, (mail, want)) in ORDERS.iter().enumerate() {
        let mut wire = with_five(&rt, alloc, *mail);
        let senders = senders_of(&rt, alloc, &mut wire);
        assert!(rt; senders.as_slice() == *want, "case {at}");
    }
}

/// Ends a round in which one letter is taken, and tells its sender and receiver.
fn single_round(rt: &impl Abort, wire: &mut MemWire) -> (u32, u32)
    requires free { wire.old.turn ≡ turns.Free }
    requires room { rounds_in wire.old.log ≤ letters_in wire.old.log }
    ensures free { wire.new.turn ≡ turns.Free }
    ensures letters { letters_in wire.new.log ≡ letters_in wire.old.log }
    ensures rounds { rounds_in wire.new.log ≡ rounds_in wire.old.log + 1 }
{
    let between = ranks_of(wire.take().expect(rt, "a letter"));
    assert!(rt; !wire.more());
    wire.round();
    between
}

/// The letter of an entry: P, T and R.
fn letter_of(entry: Option<&Entry>) -> char {
    match entry {
        Some(Entry::Posted(_)) => 'P',
        Some(Entry::Taken(_)) => 'T',
        Some(Entry::Round) => 'R',
        None => '?',
    }
}

/// The entries of a log, the oldest first.
fn log_reads(rt: &impl Abort, alloc: Global, log: &Log, want: &str) {
    let mut text = String::new(alloc);
    for i in 0..log.len() {
        text.push(letter_of(log.at(i))).expect(rt, "memory");
    }
    assert_eq!(rt; text.as_str(), want);
    assert!(rt; log.at(log.len()).is_none());
}

#[test]
fn one_letter_a_round(rt: HostRuntime) {
    let alloc = rt.alloc();
    let mut wire = begun(&rt, alloc, Mail::Single);
    post_to(&rt, alloc, &mut wire, 0, 1, &NO_BRANCHES);
    post_to(&rt, alloc, &mut wire, 1, 0, &NO_BRANCHES);
    assert!(rt; single_round(&rt, &mut wire) == (0, 1));
    assert_eq!(rt; wire.pending(), 1);
    assert!(rt; single_round(&rt, &mut wire) == (1, 0));
    assert!(rt; wire.take().is_none());
    assert_eq!(rt; wire.letters(), 2);
    assert_eq!(rt; wire.log().letters(), 2);
    assert_eq!(rt; wire.log().rounds(), 2);
    log_reads(&rt, alloc, wire.log(), "PPTRTR");
}

/// The entry of a posted letter has the letter.
fn is_posted(rt: &impl Abort, entry: Option<&Entry>) {
    let Some(Entry::Posted(copy)) = entry else {
        panic!(rt; "not posted")
    };
    assert!(rt; copy.from() == 7 && copy.to() == 9);
    assert!(rt; copy.key(0) == Some(ASKED));
}

/// The entry of a taken letter has its note.
fn is_taken(rt: &impl Abort, entry: Option<&Entry>) {
    let Some(Entry::Taken(note)) = entry else {
        panic!(rt; "not taken")
    };
    assert!(rt; note.from == 7 && note.to == 9);
    assert!(rt; note.kind == Kind::Asks);
    assert!(rt; note.keys.as_slice() == [ASKED].as_slice());
}

/// Takes the letter that asks for the cell; another one may be taken.
fn take_asked(rt: &impl Abort, wire: &mut MemWire)
    requires free { wire.old.turn ≡ turns.Free }
{
    let letter = wire.take().expect(rt, "a letter");
    assert!(rt; letter.key(0) == Some(ASKED));
    assert!(rt; wire.more());
}

#[test]
fn the_log_has_the_keys(rt: HostRuntime) {
    let alloc = rt.alloc();
    let mut wire = MemWire::new(alloc).expect(&rt, "memory");
    post_to(&rt, alloc, &mut wire, 7, 9, &ONE_ASK);
    take_asked(&rt, &mut wire);
    is_posted(&rt, wire.log().at(0));
    is_taken(&rt, wire.log().at(1));
    assert_eq!(rt; wire.pending(), 0);
    wire.begin(Mail::Last);
    assert_eq!(rt; wire.log().len(), 0);
}

/// Two who enter a gate on one thread do not meet.
fn nobody_meets(rt: &impl Abort, limit: u64) {
    let gate = MeetGate::new(limit);
    gate.enter(0);
    assert!(rt; !gate.met());
    gate.enter(1);
    assert!(rt; !gate.met());
}

#[test]
fn one_thread_meets_nobody(rt: HostRuntime) {
    nobody_meets(&rt, 0);
    nobody_meets(&rt, 10);
    OpenGate.enter(7);
}

#[test]
fn a_rank_that_is_held_meets_the_next(rt: HostRuntime) {
    let gate = MeetGate::new(1_000_000_000);
    join(&rt, || gate.enter(5), || gate.enter(5));
    assert!(&rt; gate.met());
}
