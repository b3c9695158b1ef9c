//! The letters that a rank puts into its outbox: at most one of a kind to each other rank, by
//! ascending receiver.
ghost use Rattle.std.specs.Prelude.{◌≡◌, ◌≢◌, ◌<◌, ◌≤◌, ◌++◌, ℕ, length, map, All, IfOk, OnOk};
ghost use Rattle.std.specs.Prelude.{OnErr};
ghost use Rattle.hot_units.specs.Limits.{max_ranks};
ghost use Rattle.cell_mail.specs.declared.content.Content.TheVariants as content;
ghost use Rattle.cell_mail.specs.Grammar.{HasSpelling};
ghost use Rattle.rank_core.specs.Mail as mail;
ghost use Rattle.rank_core.specs.Seat.{each_below, branches_to};

use crate::place::Place;
use crate::request::{Request, keys_for};
use cell_mail::Letter;
use hot_model::{AnswerList, Answered, RecList};
use hot_units::KeyList;
use local_tree::LocalTree;
use std::alloc::{AllocError, Global};
use std::collections::VecDeque;

/// Tells a rank these branches, unless it is the sender.
fn tell(
    alloc: Global,
    me: u32,
    to: u32,
    list: &RecList,
    outbox: &mut VecDeque<Letter>,
) -> Result<(), AllocError>
    requires ranks { (me < max_ranks) × (to < max_ranks) }
    requires good { HasSpelling (content.Branches list.now) }
    ensures ok { OnOk result (outbox.new.items ≡ outbox.old.items ++ branches_to me list.now to) }
    ensures err { OnErr result (outbox.new.items ≡ outbox.old.items) }
{
    if to == me {
        return Ok(());
    }
    let letter = Letter::branches(alloc, me, to, list)?;
    outbox.push_back(letter)?;
    Ok(())
}

/// Tells the branches of the rank to each other rank.
#[tactic(auto, using(crate::proofs::Mails::on_letters))]
pub(crate) fn put_branches(
    alloc: Global,
    place: &Place,
    list: &RecList,
    outbox: &mut VecDeque<Letter>,
) -> Result<(), AllocError>
    requires me { place.now.me < place.now.ranks }
    requires ranks { place.now.ranks ≤ max_ranks }
    requires good { HasSpelling (content.Branches list.now) }
    ensures all { OnOk result (outbox.new.items ≡ outbox.old.items
        ++ each_below (branches_to place.now.me list.now) place.now.ranks) }
    ensures some { mail.Puts (branches_to place.now.me list.now) place.now.ranks
        outbox.old.items outbox.new.items }
{
    for to in 0..place.ranks {
        tell(alloc, place.me, to, list, outbox)?;
    }
    Ok(())
}

/// Asks a rank for the cells of its requests, if there are any.
fn ask(
    alloc: Global,
    me: u32,
    to: u32,
    requests: &[Request],
    outbox: &mut VecDeque<Letter>,
) -> Result<(), AllocError>
    requires ranks { (me < max_ranks) × (to < max_ranks) }
    requires good { mail.MayAsk me to (mail.keys_for to requests.now) }
    ensures ok { OnOk result (outbox.new.items ≡ outbox.old.items
        ++ mail.asks_to me requests.now to) }
    ensures err { OnErr result (outbox.new.items ≡ outbox.old.items) }
{
    let keys = keys_for(alloc, requests, to)?;
    if keys.len() == 0 {
        return Ok(());
    }
    let letter = Letter::asks(alloc, me, to, &keys)?;
    outbox.push_back(letter)?;
    Ok(())
}

/// Asks for the cells of the requests, by one letter to each rank that is asked.
#[tactic(auto, using(crate::proofs::Mails::on_letters))]
pub(crate) fn put_asks(
    alloc: Global,
    place: &Place,
    requests: &[Request],
    outbox: &mut VecDeque<Letter>,
) -> Result<(), AllocError>
    requires me { place.now.me < place.now.ranks }
    requires ranks { place.now.ranks ≤ max_ranks }
    requires good { (q : ℕ) → q < place.now.ranks
        → mail.MayAsk place.now.me q (mail.keys_for q requests.now) }
    ensures all { OnOk result (outbox.new.items ≡ outbox.old.items
        ++ each_below (mail.asks_to place.now.me requests.now) place.now.ranks) }
    ensures some { mail.Puts (mail.asks_to place.now.me requests.now) place.now.ranks
        outbox.old.items outbox.new.items }
{
    for to in 0..place.ranks {
        ask(alloc, place.me, to, requests, outbox)?;
    }
    Ok(())
}

/// The answers of a piece for these cells.
fn answers(alloc: Global, tree: &LocalTree, keys: &KeyList) -> Result<AnswerList, AllocError>
    requires homes { All (mail.IsHome tree.now) keys.now }
    ensures value { IfOk result (λ l. l ≡ map (mail.answered tree.now) keys.now) }
{
    let mut list = AnswerList::with_capacity(alloc, keys.len())?;
    for &key in keys.as_slice() {
        list.push(Answered {
            key,
            answer: tree.answer(key)?,
        })?;
    }
    Ok(list)
}

/// Answers the requests of a rank, if there are any.
fn reply(
    alloc: Global,
    me: u32,
    tree: &LocalTree,
    to: u32,
    requests: &[Request],
    outbox: &mut VecDeque<Letter>,
) -> Result<(), AllocError>
    requires ranks { (me < max_ranks) × (to < max_ranks) }
    requires good { mail.MayAnswer me tree.now to (mail.keys_for to requests.now) }
    ensures ok { OnOk result (outbox.new.items ≡ outbox.old.items
        ++ mail.answers_to me tree.now requests.now to) }
    ensures err { OnErr result (outbox.new.items ≡ outbox.old.items) }
{
    let keys = keys_for(alloc, requests, to)?;
    if keys.len() == 0 {
        return Ok(());
    }
    let list = answers(alloc, tree, &keys)?;
    let letter = Letter::answers(alloc, me, to, &list)?;
    outbox.push_back(letter)?;
    Ok(())
}

/// Answers the requests, by one letter to each rank that asked.
#[tactic(auto, using(crate::proofs::Mails::on_letters))]
pub(crate) fn put_answers(
    alloc: Global,
    place: &Place,
    tree: &LocalTree,
    requests: &[Request],
    outbox: &mut VecDeque<Letter>,
) -> Result<(), AllocError>
    requires me { place.now.me < place.now.ranks }
    requires ranks { place.now.ranks ≤ max_ranks }
    requires good { (q : ℕ) → q < place.now.ranks
        → mail.MayAnswer place.now.me tree.now q (mail.keys_for q requests.now) }
    ensures all { OnOk result (outbox.new.items ≡ outbox.old.items
        ++ each_below (mail.answers_to place.now.me tree.now requests.now) place.now.ranks) }
    ensures some { mail.Puts (mail.answers_to place.now.me tree.now requests.now) place.now.ranks
        outbox.old.items outbox.new.items }
{
    for to in 0..place.ranks {
        reply(alloc, place.me, tree, to, requests, outbox)?;
    }
    Ok(())
}
