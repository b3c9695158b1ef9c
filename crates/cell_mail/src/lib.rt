//! Letters between ranks, as bytes: the branches of a rank, asks for cells, and answers for them
//! (the messages of a parallel hashed oct-tree, after Warren and Salmon, 1993). A content has one
//! spelling, and bytes that came from outside are read as a letter or refused.
#![tactic(auto)]

mod answer;
mod content;
mod entry;
mod keyed;
mod laws;
mod letter;
mod limits;
mod note;
mod number;
mod parts;
mod reading;
mod skim;
mod sums;

pub use content::{Content, Kind, LetterError};
pub use laws::{one_content, one_spelling};
pub use letter::Letter;
pub use note::Note;
