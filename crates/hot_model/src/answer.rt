use crate::CellRec;
use hot_units::{BodyList, Items};

/// Records of cells.
pub type RecList = Items<CellRec>;

/// Answers to the cells that a rank was asked for.
pub type AnswerList = Items<Answered>;

/// What an owner answers for a cell: the records of its children that have bodies, or, where it is
/// a leaf, its bodies.
#[derive(Drop)]
pub enum Answer {
    Children(RecList),
    Bodies(BodyList),
}

/// A cell, by its key, with the owner's answer for it.
#[derive(Drop)]
pub struct Answered {
    pub key: u64,
    pub answer: Answer,
}
