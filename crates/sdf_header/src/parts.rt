//! The parts that statements are made of: signs, words, names, sizes and types.

ghost use Rattle.std.specs.Prelude.{◌≡◌, ◌≤◌, ◌<◌, length, ℕ, IfOk};
ghost use Rattle.sdf_tokens.specs.Tokens.{Is, lex_of, lexeme_of, Advances};
ghost use Rattle.sdf_header.specs.Parts.{name_of, is_the, sign_at, named, word_at, given_of};
ghost use Rattle.sdf_header.specs.Parts.{new_name, size_of, size_at, type_at, second_ref};

use crate::document::{Named, Value};
use crate::kind::Kind;
use crate::types::{kind_named, unsigned_kind};
use sdf_tokens::{Fault, FaultKind, Lexed, Token, fault_at, next, syntax_at};
use std::collections::BTreeMap;

pub fn is_the(sign: u8, token: Token<'_>) -> bool
    ensures { result ≡ is_the sign (lexeme_of token.entry) }
{
    match token {
        Token::Sign(byte) => byte == sign,
        _ => false,
    }
}

/// The text behind this sign, which is the next token.
#[tactic(auto, unfolding(crate::specs::Parts::sign_at))]
pub fn sign_at(sign: u8, bytes: &[u8]) -> Result<&[u8], Fault>
    ensures exact { Is (λ rest. rest.now) result (sign_at sign bytes.now) }
    ensures shorter { IfOk result (λ rest. length rest.now ≤ length bytes.now) }
{
    let l = next(bytes)?;
    if !is_the(sign, l.token) {
        return Err(syntax_at(l.start));
    }
    Ok(l.rest)
}

/// The word that a token is.
pub fn named(l: Lexed<'_>) -> Result<Named<'_>, Fault>
    ensures exact { Is name_of result (named (lex_of l.entry)) }
    ensures shorter { (before : ℕ) → Advances l.entry.token (length l.entry.rest.now) before
        → IfOk result (λ n. length n.rest.now < before) }
{
    let Token::Word(name) = l.token else {
        return Err(syntax_at(l.start));
    };
    Ok(Named {
        name,
        start: l.start,
        rest: l.rest,
    })
}

/// The word that is the next token.
#[tactic(auto, unfolding(crate::specs::Parts::word_at))]
pub fn word_at(bytes: &[u8]) -> Result<Named<'_>, Fault>
    ensures exact { Is name_of result (word_at bytes.now) }
    ensures shorter { IfOk result (λ n. length n.rest.now < length bytes.now) }
{
    named(next(bytes)?)
}

/// The name that is the next token, if no statement gave it before.
#[tactic(auto, unfolding(crate::specs::Parts::new_name))]
pub fn new_name<'a>(given: &BTreeMap<&'a [u8], Value>, bytes: &'a [u8]) -> Result<Named<'a>, Fault>
    ensures exact { Is name_of result (new_name (given_of given.now) bytes.now) }
    ensures shorter { IfOk result (λ n. length n.rest.now < length bytes.now) }
{
    let n = word_at(bytes)?;
    if given.contains_key(n.name) {
        return Err(fault_at(FaultKind::NameTwice, n.start));
    }
    Ok(n)
}

fn size_of(token: Token<'_>) -> Option<u64>
    ensures { result ≡ size_of (lexeme_of token.entry) }
{
    match token {
        Token::Number(Some(value)) => u64::try_from(value).ok(),
        _ => None,
    }
}

/// A size or nothing, and the text behind the closing bracket.
#[tactic(auto, unfolding(crate::specs::Parts::size_at))]
pub fn size_at(bytes: &[u8]) -> Result<(Option<u64>, &[u8]), Fault>
    ensures exact { Is second_ref result (size_at bytes.now) }
    ensures shorter { IfOk result (λ x. length x.1.now ≤ length bytes.now) }
{
    let l = next(bytes)?;
    if is_the(b']', l.token) {
        return Ok((None, l.rest));
    }
    let Some(size) = size_of(l.token) else {
        return Err(syntax_at(l.start));
    };
    let rest = sign_at(b']', l.rest)?;
    Ok((Some(size), rest))
}

/// The type that a word begins, and what is behind it.
#[tactic(auto, unfolding(crate::specs::Parts::type_at))]
pub fn type_at(first: Named<'_>) -> Result<(Kind, &[u8]), Fault>
    ensures exact { Is second_ref result (type_at (name_of first.entry)) }
    ensures shorter { IfOk result (λ x. length x.1.now ≤ length first.entry.rest.now) }
{
    let unknown = fault_at(FaultKind::UnknownType, first.start);
    if first.name != b"unsigned".as_slice() {
        let Some(kind) = kind_named(first.name) else {
            return Err(unknown);
        };
        return Ok((kind, first.rest));
    }
    let Ok(l) = next(first.rest) else {
        return Err(unknown);
    };
    let Token::Word(word) = l.token else {
        return Err(unknown);
    };
    let Some(kind) = unsigned_kind(word) else {
        return Err(unknown);
    };
    Ok((kind, l.rest))
}
