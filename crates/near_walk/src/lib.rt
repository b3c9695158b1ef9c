//! The visit of neighbours: for each body the rows of the other bodies within a radius.
#![tactic(auto)]

mod acc;
mod boxes;
mod laws;
pub mod limits;
mod visit;

pub use acc::NearAcc;
pub use laws::{neighbours_by_filter, none_unopened, rows_of_neighbours};
pub use visit::NearVisit;
