//! The shared top of the tree: from the branch lists of all ranks the cells above them, their
//! records over all bodies, their children, and the owner of each branch (Warren and Salmon, 1993).
#![tactic(auto)]

mod above;
mod find;
mod laws;
mod listed;
mod order;
mod run;
mod top;
mod top_cell;

pub use laws::{bodies_have_one_branch, merged_is_true, true_lists_merge};
pub use listed::{Listed, gathered};
pub use top::Top;
pub use top_cell::TopCell;
