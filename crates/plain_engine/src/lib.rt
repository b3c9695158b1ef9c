//! The reference engine: one plain recursive walk a body.
#![tactic(auto)]

mod cells;
mod engine;
mod walk;

pub use engine::PlainEngine;
pub use walk::fold_of;
