//! What the verdict of a header means: a law in the terms of its tokens and statements.
#![tactic(auto)]

mod laws;

pub use laws::header_is_statements;
