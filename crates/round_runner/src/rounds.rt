// Rounds of all ranks.
ghost use Rattle.std.specs.Prelude.{◌≡◌, [], ◌<◌, ◌≤◌, length, IfOk, OnOk, true, false};
ghost use Rattle.hot_units.specs.Limits.{max_ranks};
ghost use Rattle.wire.specs.Desk.{rounds_in};
ghost use Rattle.wire.specs.declared.wire.Turn.TheVariants as turns;
ghost use Rattle.rank_core.specs.Standing.{StandsIn, FitsAWorld};
ghost use Rattle.protocol.specs.Logs.{IsPrompt, taken_since};
ghost use Rattle.protocol.specs.Joint.{AllWorked, AllQuiet, IsStart, AllFinished, AllNew, IsBegun};
ghost use Rattle.protocol.specs.Ranks.{seats, ArePlaced};
ghost use Rattle.round_runner.specs.Running.{numbers, AllFed, SomeStarved, SameBut};
ghost use Rattle.round_runner.specs.Running.{IsEager, IsOverIn, SameMail, Frame, QuietAt, PopsAt, HandsAt};
ghost use Rattle.round_runner.specs.Running.{FitAWorld, StepsTo, AllStep, FitsItsRank, IsItsFresh};
ghost use Rattle.round_runner.specs.Running.{AreTogether, StayTogether, IsLegalFor, IsComplete, IsInBound};
ghost use Rattle.round_runner.specs.Running.{IsFewIfPrompt, HasOneMore, RunSomewhere, RunOn, StaysLegal};
ghost use Rattle.round_runner.specs.Running.{Ends};

use cell_mail::Letter;
use hot_model::Visit;
use rank_core::Rank;
use std::alloc::{AllocError, Global};
use std::thread;
use std::thread::Threads;
use wire::{Gate, Wire};

// All ranks enter the gate and step, on at most so many threads.
fn step_all<R: Threads + Sync, V: Visit, G: Gate>(
    rt: &R,
    ranks: &mut [Rank<V>],
    threads: usize,
    gate: &G,
)
    requires threads { 0 < threads }
    requires fit { FitAWorld V.Visit V.Acc.Seen ranks.old }
    ensures each { AllStep V.Visit V.Acc.Seen ranks.old ranks.new }
    ensures len { length ranks.new ≡ length ranks.old }
{
    thread::for_each_mut(
        rt,
        ranks,
        threads,
        &|_, rank: &mut Rank<V>|
            requires fits { FitsAWorld V.Visit V.Acc.Seen rank.now }
            ensures step { StepsTo V.Visit V.Acc.Seen rank.entry.now rank.exit.now }
        {
            gate.enter(rank.me());
            let _done = rank.step();
        },
    );
}

fn any_starved<V: Visit>(ranks: &[Rank<V>]) -> bool
    ensures none { result ≡ false → AllFed ranks.now }
    ensures some { result ≡ true → SomeStarved ranks.now }
{
    for rank in ranks {
        if rank.starved() {
            return true;
        }
    }
    false
}

// The oldest letter of the outbox of rank q.
fn pop_from<V: Visit>(ranks: &mut [Rank<V>], q: usize) -> Option<Letter>
    requires within { q < length ranks.old }
    ensures popped { PopsAt (StandsIn V.Visit V.Acc.Seen) ranks.old q result ranks.new }
{
    ranks[q].outbox()
}

// The letter goes to its rank.
fn hand<V: Visit>(ranks: &mut [Rank<V>], letter: Letter) -> Result<(), AllocError>
    requires within { letter.to < length ranks.old }
    requires fits { FitsItsRank V.Visit V.Acc.Seen ranks.old letter }
    requires mine { IsItsFresh ranks.old letter }
    ensures handed { HandsAt (StandsIn V.Visit V.Acc.Seen) ranks.old letter ranks.new result }
{
    let to = letter.to() as usize;
    ranks[to].take(letter)
}

// Posts the letters of rank q, the oldest first.
fn post_rank<V: Visit, M: Wire>(
    ranks: &mut [Rank<V>],
    q: usize,
    wire: &mut M,
) -> Result<(), AllocError>
    requires within { q < length ranks.old }
    ensures kept { RunOn V.Visit V.Acc.Seen M.desk ranks.old wire.old ranks.new wire.new result }
    ensures legal { StaysLegal V.Visit V.Acc.Seen ranks.old (M.desk wire.old) 1 (M.desk wire.new) }
    ensures worked { AllWorked (seats ranks.old) → AllWorked (seats ranks.new) }
    ensures quiet { OnOk result (QuietAt (seats ranks.new) q) }
    ensures others { SameBut q ranks.old ranks.new }
    ensures places { numbers ranks.new ≡ numbers ranks.old }
    ensures frame { Frame ranks.old (M.desk wire.old) ranks.new (M.desk wire.new) }
    ensures turn { (M.desk wire.new).turn ≡ (M.desk wire.old).turn }
{
    while let Some(letter) = pop_from(ranks, q) {
        match wire.post(letter) {
            Ok(()) => {}
            Err(_refused) => return Err(AllocError),
        }
    }
    Ok(())
}

// Posts all letters, by ascending rank.
fn post_all<V: Visit, M: Wire>(ranks: &mut [Rank<V>], wire: &mut M) -> Result<(), AllocError>
    ensures kept { RunOn V.Visit V.Acc.Seen M.desk ranks.old wire.old ranks.new wire.new result }
    ensures legal { StaysLegal V.Visit V.Acc.Seen ranks.old (M.desk wire.old) 1 (M.desk wire.new) }
    ensures worked { AllWorked (seats ranks.old) → AllWorked (seats ranks.new) }
    ensures quiet { OnOk result (AllQuiet (seats ranks.new)) }
    ensures places { numbers ranks.new ≡ numbers ranks.old }
    ensures frame { Frame ranks.old (M.desk wire.old) ranks.new (M.desk wire.new) }
    ensures turn { (M.desk wire.new).turn ≡ (M.desk wire.old).turn }
{
    for q in 0..ranks.len() {
        post_rank(ranks, q, wire)?;
    }
    Ok(())
}

// Takes one letter of the wire and hands it to its rank. The answer is the number of that rank.
fn deliver_one<V: Visit, M: Wire>(ranks: &mut [Rank<V>], wire: &mut M) -> Result<u32, AllocError>
    requires running { RunSomewhere V.Visit V.Acc.Seen ranks.old (M.desk wire.old) 1 }
    requires free { (M.desk wire.old).turn ≡ turns.Free }
    requires some { 0 < length (M.desk wire.old).pending }
    ensures kept { RunOn V.Visit V.Acc.Seen M.desk ranks.old wire.old ranks.new wire.new result }
    ensures legal { StaysLegal V.Visit V.Acc.Seen ranks.old (M.desk wire.old) 1 (M.desk wire.new) }
    ensures quiet { AllQuiet (seats ranks.old) → OnOk result (AllQuiet (seats ranks.new)) }
    ensures places { numbers ranks.new ≡ numbers ranks.old }
    ensures frame { Frame ranks.old (M.desk wire.old) ranks.new (M.desk wire.new) }
    ensures used { (M.desk wire.new).turn ≡ turns.Used }
    ensures taken { taken_since (M.desk wire.new).log ≡ true }
    ensures fewer { length (M.desk wire.new).pending < length (M.desk wire.old).pending }
    ensures to { IfOk result (λ q. q < max_ranks) }
{
    match wire.take() {
        Some(letter) => {
            let to = letter.to();
            hand(ranks, letter)?;
            Ok(to)
        }
        None => unreachable!(),
    }
}

// Takes one letter, and further ones while the wire allows it. The answer has a bit for each rank
// that got letters.
fn deliver<V: Visit, M: Wire>(ranks: &mut [Rank<V>], wire: &mut M) -> Result<u64, AllocError>
    requires running { RunSomewhere V.Visit V.Acc.Seen ranks.old (M.desk wire.old) 1 }
    requires free { (M.desk wire.old).turn ≡ turns.Free }
    requires some { 0 < length (M.desk wire.old).pending }
    ensures kept { RunOn V.Visit V.Acc.Seen M.desk ranks.old wire.old ranks.new wire.new result }
    ensures legal { StaysLegal V.Visit V.Acc.Seen ranks.old (M.desk wire.old) 1 (M.desk wire.new) }
    ensures quiet { AllQuiet (seats ranks.old) → OnOk result (AllQuiet (seats ranks.new)) }
    ensures places { numbers ranks.new ≡ numbers ranks.old }
    ensures frame { Frame ranks.old (M.desk wire.old) ranks.new (M.desk wire.new) }
    ensures over { OnOk result (IsOverIn (M.desk wire.new)) }
    ensures eager { OnOk result (IsEager (M.desk wire.old) → (M.desk wire.new).pending ≡ []) }
    ensures taken { OnOk result (taken_since (M.desk wire.new).log ≡ true) }
{
    let mut receivers: u64 = 1 << deliver_one(ranks, wire)?;
    while wire.pending() > 0 && wire.more() {
        receivers |= 1 << deliver_one(ranks, wire)?;
    }
    Ok(receivers)
}

// One round, in which so many ranks have something to do: in the first one all, and later those
// that got letters in the round before. So many threads it takes, and none where one rank alone
// has; then the number is that for the next round. The answer says whether the round was the last
// one.
fn one_round<R: Threads + Sync, V: Visit, M: Wire, G: Gate>(
    rt: &R,
    ranks: &mut [Rank<V>],
    busy: &mut u32,
    wire: &mut M,
    gate: &G,
) -> Result<bool, AllocError>
    requires running { RunSomewhere V.Visit V.Acc.Seen ranks.old (M.desk wire.old) 0 }
    requires quiet { AllQuiet (seats ranks.old) }
    requires start { IsStart (M.desk wire.old).log }
    requires free { (M.desk wire.old).turn ≡ turns.Free }
    ensures kept { Ends V.Visit V.Acc.Seen M.desk ranks.old wire.old ranks.new wire.new result }
    ensures legal { StaysLegal V.Visit V.Acc.Seen ranks.old (M.desk wire.old) 0 (M.desk wire.new) }
    ensures quiet { OnOk result (AllQuiet (seats ranks.new)) }
    ensures start { OnOk result (IsStart (M.desk wire.new).log) }
    ensures mail { SameMail (M.desk wire.old) (M.desk wire.new) }
    ensures rounds { OnOk result (HasOneMore (M.desk wire.old).log (M.desk wire.new).log) }
    ensures free { OnOk result ((M.desk wire.new).turn ≡ turns.Free) }
    ensures places { numbers ranks.new ≡ numbers ranks.old }
    ensures len { length ranks.new ≡ length ranks.old }
{
    step_all(rt, ranks, (*busy as usize).max(1), gate);
    if any_starved(ranks) {
        return Err(AllocError);
    }
    post_all(ranks, wire)?;
    if wire.pending() == 0 {
        wire.round();
        return Ok(true);
    }
    *busy = deliver(ranks, wire)?.count_ones();
    wire.round();
    Ok(false)
}

/// Runs the rounds of all ranks until each rank is finished, and answers how many rounds there
/// were.
///
/// The ranks are 1 to 64 new ones, with rank `q` at place `q`. They have one visit, and there is a
/// good world for which all of them stand. The wire was begun, and nothing was posted on it.
///
/// In a round all ranks enter the gate and step, on threads where two or more have something to do.
/// Then their letters are posted, by ascending rank, and as many as the wire gives are handed to
/// their receivers, which read them in the next round. After the last round each rank is finished,
/// and nothing is pending.
///
/// For each such visit and world the log is legal whenever the call ends; and at Ok it is complete,
/// and the ranks still stand for the world. With `R` ranks and `C` cells that some body opens or
/// that are branches, there are at most `(R - 1)(R + 2C) + 1` rounds; and at most 44 where each
/// round takes all letters that were posted before, as under a mail for which the wire is eager.
/// The wire keeps its mail.
///
/// The error is want of memory alone, of a rank or of the wire. Also then rank `q` is at place `q`;
/// letters may be pending.
///
/// After Warren and Salmon, "A Parallel Hashed Oct-Tree N-Body Algorithm" (1993): branches are
/// exchanged first, and cells that are not at hand are asked of their owners in batches, while
/// other work goes on.
pub fn run<R: Threads + Sync, V: Visit, M: Wire, G: Gate>(
    rt: &R,
    _alloc: Global,
    ranks: &mut Vec<Rank<V>>,
    wire: &mut M,
    gate: &G,
) -> Result<u64, AllocError>
    requires together { AreTogether V.Visit V.Acc.Seen ranks.old.items }
    requires few { length ranks.old.items ≤ max_ranks }
    requires new { AllNew (seats ranks.old.items) }
    requires begun { IsBegun (M.desk wire.old) }
    ensures finished { OnOk result (AllFinished (seats ranks.new.items)) }
    ensures placed { ArePlaced ranks.new.items }
    ensures stand { StayTogether V.Visit V.Acc.Seen ranks.old.items ranks.new.items result }
    ensures legal { IsLegalFor V.Visit V.Acc.Seen ranks.old.items (M.desk wire.new).log }
    ensures complete { IsComplete V.Visit V.Acc.Seen ranks.old.items (M.desk wire.new).log result }
    ensures bound { IsInBound V.Visit V.Acc.Seen ranks.old.items (M.desk wire.new).log result }
    ensures quiet { OnOk result ((M.desk wire.new).pending ≡ []) }
    ensures rounds { IfOk result (λ n. n ≡ rounds_in (M.desk wire.new).log) }
    ensures prompt { OnOk result (IsEager (M.desk wire.old) → IsPrompt (M.desk wire.new).log) }
    ensures few { OnOk result (IsFewIfPrompt (M.desk wire.new).log) }
    ensures mail { SameMail (M.desk wire.old) (M.desk wire.new) }
    ensures len { length ranks.new.items ≡ length ranks.old.items }
{
    let mut rounds = 0;
    let mut busy = ranks.len() as u32;
    loop {
        let last = one_round(rt, ranks.as_mut_slice(), &mut busy, wire, gate)?;
        rounds += 1;
        if last {
            return Ok(rounds);
        }
    }
}
