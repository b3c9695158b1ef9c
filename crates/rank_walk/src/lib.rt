//! One walk of all bodies of a set, shared out over ranks that send each other letters (Warren and
//! Salmon, 1993).
#![tactic(auto)]

mod walk;

pub use rank_set::{Effort, Found, Sharing, place_by_row};
pub use walk::walk_over_ranks;
