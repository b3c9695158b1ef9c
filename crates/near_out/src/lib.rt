//! The neighbours of bodies, written to a sink of bytes.
#![tactic(auto)]

mod text;

pub use text::write_near;
