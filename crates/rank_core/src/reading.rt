//! A rank reads its inbox.
ghost use Rattle.std.specs.Prelude.{◌≡◌, ◌≤◌, ◌++◌, [], ℕ, map, Contains, OnOk, IfOk};
ghost use Rattle.rank_model.specs.World.{World};
ghost use Rattle.defer_walk.specs.Standing.{answer_of};
ghost use Rattle.rank_core.specs.Times.{times};
ghost use Rattle.rank_core.specs.Part.{AreAsked};
ghost use Rattle.rank_core.specs.Standing.{HoldsIn, HoldsSomewhere, WhereHolds, StillHolds};
ghost use Rattle.rank_core.specs.Standing.{WalkStands, IsOpen};
ghost use Rattle.rank_core.specs.Reading.{AreAnswers, AreTaken, CanReadIn, Hears, Notes, Reads};
ghost use Rattle.rank_core.specs.Reading.{Stores, Supplies, WhereRead, item_keys};
ghost use Rattle.rank_core.specs.Seat.{all_answered, all_told, answered_in, told_in};
ghost use Rattle.rank_core.specs.Sending.{AskSame};

use crate::request::Request;
use crate::state::State;
use cell_mail::{Content, Letter};
use defer_walk::Walk;
use hot_model::{AnswerList, Visit};
use hot_units::KeyList;
use std::alloc::AllocError;

/// Notes the requests of another rank.
fn note(requests: &mut Vec<Request>, rank: u32, keys: &KeyList) -> Result<(), AllocError>
    ensures noted { OnOk result (requests.new.items ≡ requests.old.items ++ map
        (λ k. record { rank = rank; key = k }) keys.now) }
{
    for &key in keys.as_slice() {
        requests.push(Request { rank, key })?;
    }
    Ok(())
}

/// Gives the walk answers for cells that it asked for.
fn supply_all<V: Visit>(walk: &mut Walk<V>, mut list: AnswerList)
    requires lacks { (k : ℕ) → Contains (item_keys list) k → IsOpen walk.old k }
    requires once { (k : ℕ) → times k (item_keys list) ≤ 1 }
    requires fits { (w : World) × WalkStands V.Visit V.Acc.Seen w walk.old × AreAnswers w list }
    ensures stands { (w : World) → WalkStands V.Visit V.Acc.Seen w walk.old → AreAnswers w list
        → WalkStands V.Visit V.Acc.Seen w walk.new }
    ensures supplies { Supplies walk.old walk.new }
    ensures stores { Stores walk.old walk.new (item_keys list) }
    ensures others { (k : ℕ) → (Contains (item_keys list) k → ⊥)
        → answer_of walk.new k ≡ answer_of walk.old k }
{
    while let Some(item) = list.pop() {
        walk.supply(item);
    }
}

/// Reads a letter that was taken out of the inbox.
fn read_letter<V: Visit>(
    state: &mut State,
    walk: &mut Walk<V>,
    requests: &mut Vec<Request>,
    letter: &Letter,
) -> Result<(), AllocError>
    requires fits { (w : World)
        × CanReadIn V.Visit V.Acc.Seen w state.old walk.old requests.old.items letter.now }
    ensures holds { WhereRead V.Visit V.Acc.Seen state.old walk.old requests.old.items letter.now
        (λ w. HoldsIn V.Visit V.Acc.Seen w state.new walk.new) }
    ensures taken { WhereRead V.Visit V.Acc.Seen state.old walk.old requests.old.items letter.now
        (λ w. OnOk result (AreTaken w state.new.place.me requests.new.items
        state.new.inbox.items)) }
    ensures reads { Reads state.old walk.old state.new walk.new }
    ensures inbox { state.new.inbox.items ≡ state.old.inbox.items }
    ensures noted { OnOk result (Notes requests.old.items requests.new.items letter.now) }
    ensures hears { OnOk result (Hears state.old state.new
        (told_in letter.now.from letter.now.content)) }
    ensures stores { OnOk result (Stores walk.old walk.new (answered_in letter.now.content)) }
{
    let from = letter.from();
    match letter.read(state.alloc)? {
        Content::Branches(list) => {
            state.heard.hear(from, list);
            Ok(())
        }
        Content::Asks(keys) => note(requests, from, &keys),
        Content::Answers(list) => {
            supply_all(walk, list);
            Ok(())
        }
    }
}

/// Reads the whole inbox: branch lists are heard, answers go to the walk, and the requests of other
/// ranks are given back.
pub(crate) fn read<V: Visit>(
    state: &mut State,
    walk: &mut Walk<V>,
) -> Result<Vec<Request>, AllocError>
    requires fits { HoldsSomewhere V.Visit V.Acc.Seen state.old walk.old }
    ensures holds { StillHolds V.Visit V.Acc.Seen state.old walk.old state.new walk.new }
    ensures reads { Reads state.old walk.old state.new walk.new }
    ensures empty { OnOk result (state.new.inbox.items ≡ []) }
    ensures same { IfOk result (λ v. AskSame v.items state.old.inbox.items) }
    ensures hears { OnOk result (Hears state.old state.new (all_told state.old.inbox.items)) }
    ensures stores { OnOk result (Stores walk.old walk.new (all_answered state.old.inbox.items)) }
    ensures asked { WhereHolds V.Visit V.Acc.Seen state.old walk.old
        (λ w. IfOk result (λ v. AreAsked w state.new.place.me v.items)) }
{
    let mut requests = Vec::new(state.alloc);
    while let Some(letter) = state.inbox.pop() {
        read_letter(state, walk, &mut requests, &letter)?;
    }
    Ok(requests)
}
