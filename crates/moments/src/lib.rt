//! Records of cells as sums: none, one body, and one record added to another. Nothing here takes
//! memory.
#![tactic(auto)]

mod laws;
mod lists;
mod sums;

pub use laws::sums_join;
pub use lists::of_inside;
pub use sums::{add, empty, of_body};
