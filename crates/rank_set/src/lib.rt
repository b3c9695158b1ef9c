//! The ranks of a set whose walk is shared out: how they are made, and what they find together.
#![tactic(auto)]

mod found;
mod make;
mod place;
mod sharing;

pub use found::{Effort, Found, gather};
pub use make::make_ranks;
pub use place::place_by_row;
pub use sharing::Sharing;
