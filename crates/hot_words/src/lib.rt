//! The words behind the program's name: the command with its options, or the first refusal from the
//! left. Reading them takes no memory.
#![tactic(auto)]

mod command;
mod faults;
mod job;
mod numbers;
mod places;
mod settings;
mod table;
mod texts;
mod word_list;
mod words;

pub use faults::{WordCode, WordFault};
pub use job::{Command, Job};
pub use texts::{RefusalText, refusal};
pub use word_list::WordList;
pub use words::read_words;
