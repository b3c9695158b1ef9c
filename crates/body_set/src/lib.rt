//! The list of bodies of a run: rows are checked as they come, and the list is put into key order
//! (Morton order, after Warren and Salmon, 1993).
#![tactic(auto)]

mod fault;
mod laws;
mod row;
mod set;
mod velocities;
mod velocity;

pub use fault::PushError;
pub use key_order::Ordered;
pub use laws::rows_add_up;
pub use set::BodySet;
pub use velocities::Velocities;
