//! The tree of a piece: of a run of the bodies in key order, the record, the bodies and the answer
//! of any cell, and the outermost cells that are wholly the piece's own (Warren and Salmon, 1993).
#![tactic(auto)]

mod laws;
mod list;
mod places;
mod record;
mod spans;
mod table;
mod tree;

pub use laws::{
    branches_are_listed, cells_are_listed, homes_are_own, homes_give_branches,
    own_cells_are_between, own_cells_are_whole,
};
pub use tree::LocalTree;
