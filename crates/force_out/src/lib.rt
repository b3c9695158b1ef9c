//! Forces, written to a sink of bytes.
#![tactic(auto)]

mod sdf;
mod text;

pub use sdf::{force_sdf, values_come_back};
pub use text::force_text;
