//! The kernel of gravity in whole numbers: roots, centres, the pull of a mass, the opening test,
//! and the visit that adds pulls up. Nothing here takes memory. Roots, centres and the sizes of
//! pulls are rounded down.
#![tactic(auto)]

mod bounds;
mod distance;
mod floats;
mod guesses;
mod laws;
mod opening;
mod products;
mod pulls;
mod quads;
mod quotients;
mod ratio;
mod roots;
mod softening;
mod visit;

pub use laws::forces_by_terms;
pub use opening::{accepts, centre};
pub use pulls::pull;
pub use quads::quad;
pub use ratio::Ratio;
pub use roots::root;
pub use softening::Eps;
pub use visit::ForceVisit;
