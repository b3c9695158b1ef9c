ghost use Rattle.std.specs.Prelude.{◌≡◌, ◌≤◌, ◌^◌, ◌&&◌};
ghost use Rattle.std.specs.List.{AllByRecursion};
ghost use Rattle.hot_units.specs.Limits.{max_level};
ghost use Rattle.hot_units.specs.Keys.{IsCell};
ghost use Rattle.cell_mail.specs.Grammar as grammar;
ghost use Rattle.cell_mail.specs.Merging as merging;
ghost use Rattle.cell_mail.specs.declared.content.Kind.TheVariants as kinds;
ghost use Rattle.cell_mail.specs.Reading as spec;
ghost use Rattle.cell_mail.specs.Skimming as skimming;

use crate::entry::counted_of;
use crate::keyed::rise;
use crate::limits::{ANSWERS, ASKS, BRANCHES, VERSION};
use crate::number::u8_at;
use crate::skim::counted_keys;
use crate::{Content, Kind, LetterError};
use hot_model::{Answered, CellRec};
use hot_units::KeyList;
use hot_units::limits::{MAX_BODIES, MAX_LEVEL};
use std::alloc::Global;

/// The keys behind those below a number at the front.
fn behind(keys: &[u64], wanted: u64) -> &[u64]
    ensures { result.now ≡ merging.skip_below wanted keys.now }
{
    let mut at = 0;
    for k in keys {
        if *k >= wanted {
            return &keys[at..];
        }
        at += 1;
    }
    &keys[at..]
}

/// Whether the first of the keys is this one.
fn starts_with(keys: &[u64], key: u64) -> bool
    ensures { result ≡ merging.starts key keys.now }
{
    match keys {
        [] => false,
        [first, ..] => *first == key,
    }
}

/// Whether one of the cells lies so many levels above another one, where they are in order: one
/// pass with two places.
#[tactic(auto, using(crate::proofs::Hints::on_passes))]
fn have_ancestors(keys: &[u64], up: u32) -> bool
    requires { up ≤ max_level }
    ensures { result ≡ merging.meets (8 ^ up) keys.now keys.now }
{
    let mut rest = keys;
    for k in keys {
        let wanted = *k >> (3 * up);
        rest = behind(rest, wanted);
        if starts_with(rest, wanted) {
            return true;
        }
    }
    false
}

/// Whether no cell lies 1 to 21 levels above another one, where they are in order.
fn are_apart(keys: &[u64]) -> bool
    ensures { result ≡ merging.none_meet max_level keys.now }
{
    for before in 0..MAX_LEVEL {
        if have_ancestors(keys, before + 1) {
            return false;
        }
    }
    true
}

/// Whether keys of cells ascend strictly, and none contains another one.
fn are_good_branches(keys: &[u64]) -> bool
    requires { AllByRecursion IsCell keys.now }
    ensures { result ≡ (grammar.ascend keys.now && grammar.apart keys.now) }
{
    if !rise(keys) {
        return false;
    }
    are_apart(keys)
}

/// Whether the keys of the items of a content of this kind are good.
fn are_good(kind: Kind, keys: &[u64]) -> bool
    requires { kind ≡ kinds.Branches → AllByRecursion IsCell keys.now }
    ensures { result ≡ skimming.good_keys kind keys.now }
{
    match kind {
        Kind::Branches => keys.len() <= MAX_BODIES as usize && are_good_branches(keys),
        Kind::Asks | Kind::Answers => 1 <= keys.len() && rise(keys),
    }
}

/// The items of a content of this kind.
#[tactic(auto, unfolding(crate::specs::Reading::items_at))]
fn items_of(alloc: Global, kind: u8, bytes: &[u8]) -> Result<(Content, &[u8]), LetterError>
    ensures { spec.Gives (λ x. (x.0, x.1.now)) result (spec.items_at kind bytes.now) }
{
    match kind {
        BRANCHES => {
            let (cells, rest) = counted_of::<CellRec>(alloc, bytes)?;
            Ok((Content::Branches(cells), rest))
        }
        ASKS => {
            let (keys, rest) = counted_of::<u64>(alloc, bytes)?;
            Ok((Content::Asks(keys), rest))
        }
        ANSWERS => {
            let (items, rest) = counted_of::<Answered>(alloc, bytes)?;
            Ok((Content::Answers(items), rest))
        }
        _ => Err(LetterError::NotALetter),
    }
}

/// The version, the kind and the items, each of which is good by itself, and the bytes after them.
#[tactic(auto, unfolding(crate::specs::Reading::unchecked_at))]
pub(crate) fn parsed(alloc: Global, bytes: &[u8]) -> Result<(Content, &[u8]), LetterError>
    ensures { spec.Gives (λ x. (x.0, x.1.now)) result (spec.unchecked_at bytes.now) }
{
    let (version, rest) = u8_at(bytes)?;
    let (kind, rest) = u8_at(rest)?;
    let (content, rest) = items_of(alloc, kind, rest)?;
    if version != VERSION {
        return Err(LetterError::NotALetter);
    }
    Ok((content, rest))
}

/// The kind of this number, the keys of the items, each of which is good by itself, and the bytes
/// after them.
#[tactic(auto, unfolding(crate::specs::Skimming::keys_at))]
fn keys_of_kind(
    alloc: Global,
    kind: u8,
    bytes: &[u8],
) -> Result<(Kind, KeyList, &[u8]), LetterError>
    ensures { spec.Gives (λ x. (x.0, x.1, x.2.now)) result (skimming.keys_at kind bytes.now) }
{
    match kind {
        BRANCHES => {
            let (keys, rest) = counted_keys::<CellRec>(alloc, bytes)?;
            Ok((Kind::Branches, keys, rest))
        }
        ASKS => {
            let (keys, rest) = counted_keys::<u64>(alloc, bytes)?;
            Ok((Kind::Asks, keys, rest))
        }
        ANSWERS => {
            let (keys, rest) = counted_keys::<Answered>(alloc, bytes)?;
            Ok((Kind::Answers, keys, rest))
        }
        _ => Err(LetterError::NotALetter),
    }
}

/// The kind and the keys of the items, each of which is good by itself, and the bytes after them.
#[tactic(auto, unfolding(crate::specs::Skimming::skimmed_at))]
fn skimmed(alloc: Global, bytes: &[u8]) -> Result<(Kind, KeyList, &[u8]), LetterError>
    ensures { spec.Gives (λ x. (x.0, x.1, x.2.now)) result (skimming.skimmed_at bytes.now) }
{
    let (version, rest) = u8_at(bytes)?;
    let (kind, rest) = u8_at(rest)?;
    let (kind, keys, rest) = keys_of_kind(alloc, kind, rest)?;
    if version != VERSION {
        return Err(LetterError::NotALetter);
    }
    Ok((kind, keys, rest))
}

/// The kind and the keys of the content that all of the bytes spell. The content is not built:
/// nothing is allocated but the keys, which are no larger than the bytes.
#[tactic(auto, unfolding(crate::specs::Skimming::skimming))]
pub(crate) fn whole(alloc: Global, bytes: &[u8]) -> Result<(Kind, KeyList), LetterError>
    ensures { spec.Gives (λ x. (x.0, x.1)) result (skimming.skimming bytes.now) }
{
    let (kind, keys, rest) = skimmed(alloc, bytes)?;
    if !rest.is_empty() {
        return Err(LetterError::NotALetter);
    }
    if !are_good(kind, keys.as_slice()) {
        return Err(LetterError::NotALetter);
    }
    Ok((kind, keys))
}
