//! How near the whole numbers of the kernel are to Newton's: laws alone, for pulls, for the forces
//! of every pair, and for cells taken whole.
#![tactic(auto)]

mod laws;

pub use laws::{cells_are_near, forces_are_near, pulls_are_near};
