//! The definitions of one tree, in specs/, and the types that stand for them: records of cells,
//! answers, visits, engines.
#![tactic(auto)]

mod answer;
mod cell;
mod engine;
mod visit;

pub use answer::{Answer, AnswerList, Answered, RecList};
pub use cell::CellRec;
pub use engine::ForceEngine;
pub use visit::{Seen, Visit};
