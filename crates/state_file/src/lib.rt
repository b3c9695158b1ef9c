//! The body file of a state of the leapfrog: its text, and the laws that it is read back and that
//! steps of a file can be taken back.
#![tactic(auto)]

mod laws;
mod range;
mod text;

pub use laws::{files_have_states, files_undo, state_header_reads, states_read_back};
pub use range::past_range;
pub use text::write_state;
