//! How deep bodies lie in the field of the others: the depth by one mass, the visit that adds depths
//! up, and the sums over all bodies. Nothing here takes memory. Depths are rounded down.
#![tactic(auto)]

mod acc;
mod depths;
mod laws;
pub mod limits;
mod sums;
mod visit;

pub use acc::WellAcc;
pub use depths::depth;
pub use laws::{potential_by_terms, potential_is_bounded, sums_are_totals, sums_grow};
pub use sums::Sums;
pub use visit::WellVisit;
