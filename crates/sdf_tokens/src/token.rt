//! The next token of a text.

ghost use Rattle.std.specs.Prelude.{◌≡◌, length, suc, IfOk, IfSome, ◌≤◌, ◌<◌};
ghost use Rattle.sdf_tokens.specs.Numbers.{number, sees_rest};
ghost use Rattle.sdf_tokens.specs.Tokens.{Is, lex_of, is_blank, begins_word, is_sign, behind_close};
ghost use Rattle.sdf_tokens.specs.Tokens.{blank_at, past_blanks, behind_text, text_lex, number_lex};
ghost use Rattle.sdf_tokens.specs.Tokens.{token_at, next, fault_at, syntax_at, Advances};

use crate::fault::{Fault, FaultKind};
use crate::limits::MAX_TEXT_BYTES;
use crate::number::{Class, begins_with, number, run};

/// A token of a text.
#[derive(Clone, Copy)]
pub enum Token<'a> {
    /// Letters, digits and `_`, of which the first is no digit.
    Word(&'a [u8]),
    /// A number, with its value where it is whole.
    Number(Option<i128>),
    /// At most 4,096 bytes between quotes.
    Text,
    /// One of `{`, `}`, `[`, `]`, `;`, `=` and `,`, by its byte.
    Sign(u8),
    /// The end of the text.
    End,
}

/// A token, the text from its first byte on, and the text behind it.
#[derive(Clone, Copy)]
pub struct Lexed<'a> {
    pub token: Token<'a>,
    pub start: &'a [u8],
    pub rest: &'a [u8],
}

fn is_blank(byte: u8) -> bool
    ensures { result ≡ is_blank byte }
{
    matches!(byte, b' ' | b'\t' | b'\r' | b'\n' | 12)
}

fn begins_word(byte: u8) -> bool
    ensures { result ≡ begins_word byte }
{
    byte.is_ascii_alphabetic() || byte == b'_'
}

fn is_sign(byte: u8) -> bool
    ensures { result ≡ is_sign byte }
{
    matches!(byte, b'{' | b'}' | b'[' | b']' | b';' | b'=' | b',')
}

/// A fault at the first of these bytes, which are left from its place on.
pub fn fault_at(kind: FaultKind, bytes: &[u8]) -> Fault
    ensures { result ≡ fault_at kind bytes.now }
{
    Fault {
        kind,
        left: bytes.len(),
    }
}

/// The fault of syntax at the first of these bytes, which are left from its place on.
pub fn syntax_at(bytes: &[u8]) -> Fault
    ensures { result ≡ syntax_at bytes.now }
{
    fault_at(FaultKind::Syntax, bytes)
}

/// What is behind the first `*/`.
#[tactic(auto, unfolding(crate::specs::Tokens::behind_close))]
fn behind_close(bytes: &[u8]) -> Option<&[u8]>
    ensures exact { sees_rest result ≡ behind_close bytes.now }
    ensures shorter { IfSome result (λ rest. length rest.now ≤ length bytes.now) }
{
    let mut rest = bytes;
    loop {
        match rest {
            [] => return None,
            [b'*', b'/', behind @ ..] => return Some(behind),
            [_, behind @ ..] => rest = behind,
        }
    }
}

/// What is behind the blank or comment at the front, if there is one.
#[tactic(auto, unfolding(crate::specs::Tokens::blank_at))]
fn blank_at(bytes: &[u8]) -> Result<Option<&[u8]>, Fault>
    ensures exact { Is sees_rest result (blank_at bytes.now) }
    ensures shorter { IfOk result
        (λ found. IfSome found (λ rest. length rest.now < length bytes.now)) }
{
    let [first, behind @ ..] = bytes else {
        return Ok(None);
    };
    if is_blank(*first) {
        return Ok(Some(behind));
    }
    if *first == b'#' {
        return Ok(Some(run(Class::Line, behind).1));
    }
    if *first == b'/' && begins_with(b'*', behind) {
        return match behind_close(&behind[1..]) {
            Some(rest) => Ok(Some(rest)),
            None => Err(syntax_at(bytes)),
        };
    }
    Ok(None)
}

/// What is behind all blanks and comments.
#[tactic(auto, using(crate::proofs::Blanks::start, crate::proofs::Blanks::more, crate::proofs::Blanks::done, crate::proofs::Blanks::stopped,),)]
fn past_blanks(bytes: &[u8]) -> Result<&[u8], Fault>
    ensures exact { Is (λ rest. rest.now) result (past_blanks (suc (length bytes.now)) bytes.now) }
    ensures shorter { IfOk result (λ rest. length rest.now ≤ length bytes.now) }
{
    let mut rest = bytes;
    while let Some(behind) = blank_at(rest)? {
        rest = behind;
    }
    Ok(rest)
}

#[tactic(auto, unfolding(crate::specs::Tokens::behind_text))]
fn behind_text(bytes: &[u8]) -> Option<&[u8]>
    ensures exact { sees_rest result ≡ behind_text bytes.now }
    ensures shorter { IfSome result (λ rest. length rest.now ≤ length bytes.now) }
{
    let (text, rest) = run(Class::Text, bytes);
    match rest {
        [b'"', behind @ ..] if text.len() <= MAX_TEXT_BYTES => Some(behind),
        _ => None,
    }
}

/// The text whose quote begins these bytes, from what is behind the quote.
fn text_lex<'a>(start: &'a [u8], behind: &'a [u8]) -> Result<Lexed<'a>, Fault>
    requires { length behind.now < length start.now }
    ensures exact { Is lex_of result (text_lex start.now (behind_text behind.now)) }
    ensures shorter { IfOk result (λ l. Advances l.token (length l.rest.now) (length start.now)) }
{
    match behind_text(behind) {
        Some(rest) => Ok(Lexed {
            token: Token::Text,
            start,
            rest,
        }),
        None => Err(syntax_at(start)),
    }
}

/// The number that begins these bytes.
fn number_lex(start: &[u8]) -> Result<Lexed<'_>, Fault>
    ensures exact { Is lex_of result (number_lex start.now (number start.now)) }
    ensures shorter { IfOk result (λ l. Advances l.token (length l.rest.now) (length start.now)) }
{
    match number(start) {
        Some((value, rest)) => Ok(Lexed {
            token: Token::Number(value),
            start,
            rest,
        }),
        None => Err(syntax_at(start)),
    }
}

#[tactic(auto, unfolding(crate::specs::Tokens::token_at))]
fn token_at(start: &[u8]) -> Result<Lexed<'_>, Fault>
    ensures exact { Is lex_of result (token_at start.now) }
    ensures shorter { IfOk result (λ l. Advances l.token (length l.rest.now) (length start.now)) }
{
    let [byte, behind @ ..] = start else {
        return Ok(Lexed {
            token: Token::End,
            start,
            rest: start,
        });
    };
    let byte = *byte;
    if begins_word(byte) {
        let (word, rest) = run(Class::Word, start);
        return Ok(Lexed {
            token: Token::Word(word),
            start,
            rest,
        });
    }
    if is_sign(byte) {
        return Ok(Lexed {
            token: Token::Sign(byte),
            start,
            rest: behind,
        });
    }
    if byte == b'"' {
        return text_lex(start, behind);
    }
    number_lex(start)
}

/// The next token, behind blanks and comments, with the text from its first byte on and the text
/// behind it. Each token but the end takes at least one byte. The fault is of syntax, at the first
/// byte of what is no token, or of a comment that is not closed. It takes no memory.
#[tactic(auto, unfolding(crate::specs::Tokens::next))]
pub fn next(bytes: &[u8]) -> Result<Lexed<'_>, Fault>
    ensures exact { Is lex_of result (next bytes.now) }
    ensures shorter { IfOk result (λ l. Advances l.token (length l.rest.now) (length bytes.now)) }
{
    token_at(past_blanks(bytes)?)
}
