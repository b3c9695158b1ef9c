//! The verdict of a header, in the terms of its tokens and statements.

ghost use Rattle.std.specs.Prelude.{ℕ, List};
ghost use Rattle.header_grammar.specs.Judgement.{FaultByReason, LayoutOfStatements};

/// What the verdict of an input is, for every input.
///
/// A layout comes exactly where the tokens in front of the ending line are the spelling of
/// statements that fit each other, and what these say gives the layout. Each fault comes exactly
/// where there is its reason: the extent shows it, a token of the text decides it, or fitting
/// statements say what gives no layout.
///
/// The body does nothing: the contract is the law.
pub fn header_is_statements()
    ensures layout { (bytes : List ℕ) → LayoutOfStatements bytes }
    ensures fault { (bytes : List ℕ) → FaultByReason bytes }
{}
