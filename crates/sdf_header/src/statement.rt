//! The statements of a header.

ghost use Rattle.std.specs.Prelude.{◌≡◌, ◌≤◌, ◌<◌, length, ℕ, Ok, IfOk};
ghost use Rattle.sdf_tokens.specs.Tokens.{Is, lex_of, lexeme_of, Advances};
ghost use Rattle.sdf_header.specs.Parts.{Gives, given_of, name_of};
ghost use Rattle.sdf_header.specs.Statements.{param_of, param_and_rest, header_of, param_end};
ghost use Rattle.sdf_header.specs.Statements.{number_value, value_of, parameter_at, number_for};
ghost use Rattle.sdf_header.specs.Statements.{is_text, text_at, value_at, declaration_at};
ghost use Rattle.sdf_header.specs.Statements.{with_param, parameter_statement, struct_statement};
ghost use Rattle.sdf_header.specs.Statements.{typed_statement, statement_at, is_end, header_in};

use crate::columns::struct_at;
use crate::document::{Document, Given, Named, Value};
use crate::fault::Stop;
use crate::kind::Kind;
use crate::parts::{is_the, named, new_name, sign_at, size_at, type_at};
use crate::types::{is_char, is_whole};
use sdf_tokens::{Fault, FaultKind, Lexed, Token, fault_at, next, syntax_at};
use std::alloc::Global;
use std::collections::BTreeMap;

#[tactic(auto, unfolding(crate::specs::Statements::param_end))]
fn param_end<'a>(
    name: &'a [u8],
    value: Value,
    bytes: &'a [u8],
) -> Result<(Given<'a>, &'a [u8]), Fault>
    ensures exact { Is param_and_rest result (param_end name.now value bytes.now) }
    ensures shorter { IfOk result (λ x. length x.1.now ≤ length bytes.now) }
{
    let rest = sign_at(b';', bytes)?;
    Ok((Given { name, value }, rest))
}

fn number_value(number: Option<i128>) -> Value
    ensures { result ≡ number_value number }
{
    match number {
        Some(number) => Value::Whole(number),
        None => Value::Other,
    }
}

fn value_of(token: Token<'_>) -> Option<Value>
    ensures { result ≡ value_of (lexeme_of token.entry) }
{
    match token {
        Token::Number(number) => Some(number_value(number)),
        Token::Text | Token::Word(_) => Some(Value::Other),
        _ => None,
    }
}

#[tactic(auto, unfolding(crate::specs::Statements::parameter_at))]
fn parameter_at<'a>(
    given: &BTreeMap<&'a [u8], Value>,
    bytes: &'a [u8],
) -> Result<(Given<'a>, &'a [u8]), Fault>
    ensures exact { Is param_and_rest result (parameter_at (given_of given.now) bytes.now) }
    ensures shorter { IfOk result (λ x. length x.1.now ≤ length bytes.now) }
{
    let n = new_name(given, bytes)?;
    let after = sign_at(b'=', n.rest)?;
    let l = next(after)?;
    let Some(value) = value_of(l.token) else {
        return Err(syntax_at(l.start));
    };
    param_end(n.name, value, l.rest)
}

fn number_for(kind: Kind, token: Token<'_>) -> Option<Value>
    ensures { result ≡ number_for kind (lexeme_of token.entry) }
{
    match token {
        Token::Number(None) if is_whole(kind) => None,
        Token::Number(number) => Some(number_value(number)),
        _ => None,
    }
}

fn is_text(token: Token<'_>) -> bool
    ensures { result ≡ is_text (lexeme_of token.entry) }
{
    matches!(token, Token::Text)
}

#[tactic(auto, unfolding(crate::specs::Statements::text_at))]
fn text_at<'a>(name: &'a [u8], bytes: &'a [u8]) -> Result<(Given<'a>, &'a [u8]), Fault>
    ensures exact { Is param_and_rest result (text_at name.now bytes.now) }
    ensures shorter { IfOk result (λ x. length x.1.now ≤ length bytes.now) }
{
    let (_, rest) = size_at(bytes)?;
    let after = sign_at(b'=', rest)?;
    let l = next(after)?;
    if !is_text(l.token) {
        return Err(syntax_at(l.start));
    }
    param_end(name, Value::Other, l.rest)
}

#[tactic(auto, unfolding(crate::specs::Statements::value_at))]
fn value_at<'a>(kind: Kind, name: &'a [u8], bytes: &'a [u8]) -> Result<(Given<'a>, &'a [u8]), Fault>
    ensures exact { Is param_and_rest result (value_at kind name.now bytes.now) }
    ensures shorter { IfOk result (λ x. length x.1.now ≤ length bytes.now) }
{
    let l = next(bytes)?;
    let Some(value) = number_for(kind, l.token) else {
        return Err(syntax_at(l.start));
    };
    param_end(name, value, l.rest)
}

#[tactic(auto, unfolding(crate::specs::Statements::declaration_at))]
fn declaration_at<'a>(
    kind: Kind,
    given: &BTreeMap<&'a [u8], Value>,
    bytes: &'a [u8],
) -> Result<(Given<'a>, &'a [u8]), Fault>
    ensures exact { Is param_and_rest result (declaration_at kind (given_of given.now) bytes.now) }
    ensures shorter { IfOk result (λ x. length x.1.now ≤ length bytes.now) }
{
    let n = new_name(given, bytes)?;
    let l = next(n.rest)?;
    if is_the(b'=', l.token) {
        return value_at(kind, n.name, l.rest);
    }
    if is_the(b'[', l.token) && is_char(kind) {
        return text_at(n.name, l.rest);
    }
    Err(syntax_at(l.start))
}

/// Adds what a statement gives.
fn give<'a>(document: &mut Document<'a>, given: Given<'a>) -> Result<(), Stop>
    ensures { Gives (λ _. header_of document.new) result
        (Ok (with_param (header_of document.old) (param_of given.entry))) }
{
    document.given.insert(given.name, given.value)?;
    Ok(())
}

/// What is behind the statement of a parameter, from behind its word.
fn parameter_statement<'a>(document: &mut Document<'a>, bytes: &'a [u8]) -> Result<&'a [u8], Stop>
    ensures exact { Gives (λ rest. (header_of document.new, rest.now)) result
        (parameter_statement (header_of document.old) bytes.now) }
    ensures shorter { IfOk result (λ rest. length rest.now ≤ length bytes.now) }
{
    let (given, rest) = parameter_at(&document.given, bytes)?;
    give(document, given)?;
    Ok(rest)
}

/// What is behind the struct, from its word on.
fn struct_statement<'a>(
    alloc: Global,
    document: &mut Document<'a>,
    n: Named<'a>,
) -> Result<&'a [u8], Stop>
    ensures exact { Gives (λ rest. (header_of document.new, rest.now)) result
        (struct_statement (header_of document.old) (name_of n.entry)) }
    ensures shorter { IfOk result (λ rest. length rest.now ≤ length n.entry.rest.now) }
{
    if document.table.is_some() {
        return Err(Stop::Fault(fault_at(FaultKind::SecondStruct, n.start)));
    }
    let (table, rest) = struct_at(alloc, n.rest)?;
    document.table = Some(table);
    Ok(rest)
}

/// What is behind a statement that begins with a type.
fn typed_statement<'a>(document: &mut Document<'a>, n: Named<'a>) -> Result<&'a [u8], Stop>
    ensures exact { Gives (λ rest. (header_of document.new, rest.now)) result
        (typed_statement (header_of document.old) (name_of n.entry)) }
    ensures shorter { IfOk result (λ rest. length rest.now ≤ length n.entry.rest.now) }
{
    let (kind, rest) = type_at(n)?;
    let (given, rest) = declaration_at(kind, &document.given, rest)?;
    give(document, given)?;
    Ok(rest)
}

#[tactic(auto, unfolding(crate::specs::Statements::statement_at))]
fn statement_at<'a>(
    alloc: Global,
    document: &mut Document<'a>,
    l: Lexed<'a>,
) -> Result<&'a [u8], Stop>
    ensures exact { Gives (λ rest. (header_of document.new, rest.now)) result
        (statement_at (header_of document.old) (lex_of l.entry)) }
    ensures shorter { (before : ℕ) → Advances l.entry.token (length l.entry.rest.now) before
        → IfOk result (λ rest. length rest.now < before) }
{
    let n = named(l)?;
    if n.name == b"parameter".as_slice() {
        return parameter_statement(document, n.rest);
    }
    if n.name == b"struct".as_slice() {
        return struct_statement(alloc, document, n);
    }
    typed_statement(document, n)
}

fn is_end(token: Token<'_>) -> bool
    ensures { result ≡ is_end (lexeme_of token.entry) }
{
    matches!(token, Token::End)
}

/// The header that a text is.
#[tactic(auto, using(crate::proofs::Statements::start, crate::proofs::Statements::more, crate::proofs::Statements::done,),)]
pub fn header_in(alloc: Global, text: &[u8]) -> Result<Document<'_>, Stop>
    ensures { Gives header_of result (header_in text.now) }
{
    let mut document = Document {
        given: BTreeMap::new(alloc),
        table: None,
    };
    let mut rest = text;
    'statements: loop {
        let l = next(rest)?;
        if is_end(l.token) {
            return Ok(document);
        }
        rest = statement_at(alloc, &mut document, l)?;
    }
}
