//! One rank of a run: its tree, its letters and its walk, step by step (the parallel hashed
//! oct-tree of Warren and Salmon, 1993).
#![tactic(auto)]

mod heard;
mod laws;
mod place;
mod posting;
mod rank;
mod rank_cells;
mod reading;
mod request;
mod state;
mod walking;

pub use laws::{rank_stays_true, results_rest_on_letters, seat_tells_finished};
pub use rank::Rank;
