//! How deep bodies lie, and their sums, written to a sink of bytes.
#![tactic(auto)]

mod text;

pub use text::write_energy;
