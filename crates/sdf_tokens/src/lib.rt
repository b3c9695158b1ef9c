//! The tokens of a header, one after the other.
#![tactic(auto)]

mod fault;
mod limits;
mod number;
mod token;

pub use fault::{Fault, FaultKind};
pub use token::{Lexed, Token, fault_at, next, syntax_at};
