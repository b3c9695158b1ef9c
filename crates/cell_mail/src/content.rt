ghost use Rattle.std.specs.Prelude.{◌≡◌};
ghost use Rattle.cell_mail.specs.declared.content.LetterError.TheVariants.{Memory};

use hot_model::{AnswerList, RecList};
use hot_units::KeyList;
use std::alloc::AllocError;
use thiserror::Error;

/// What a letter is for: it tells the branches of its sender, asks for cells of its receiver, or
/// answers for cells of its sender.
#[derive(Clone, Copy, Debug, PartialEq, Eq)]
pub enum Kind {
    Branches,
    Asks,
    Answers,
}

/// What is in a letter: the records of the sender's branches, the keys of the cells that are asked
/// for, or the answers for cells.
#[derive(Drop)]
pub enum Content {
    Branches(RecList),
    Asks(KeyList),
    Answers(AnswerList),
}

/// Why there is no letter.
#[derive(Debug, Drop, Error)]
pub enum LetterError {
    /// The bytes are in no form of the grammar.
    #[error("not a letter")]
    NotALetter,
    /// Memory ran out.
    #[error("out of memory")]
    Memory,
}

impl From<AllocError> for LetterError {
    ghost from_gives = { λ _ e. e ≡ Memory };

    fn from(_e: AllocError) -> LetterError {
        LetterError::Memory
    }
}
