//! Steps of the leapfrog (kick, drift, kick) in whole numbers, which can be taken back to the last
//! bit.
#![tactic(auto)]

mod laws;
mod limits;
mod many;
mod refused;
mod state;
mod step;
mod velocity;

pub use laws::steps_undo;
pub use refused::{StepRefused, StepsRefused};
pub use state::State;
