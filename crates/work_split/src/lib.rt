//! The split of the bodies into pieces of about equal work, one for each rank: runs of the list in
//! key order, cut by the running sum of the work weights (after Warren and Salmon, 1993).
#![tactic(auto)]

mod laws;
mod pieces;
mod shares;
mod weights;

pub use laws::{pieces_join, pieces_make_a_world};
pub use pieces::{Pieces, split};
