//! What carries letters between ranks, with a log of what happened, and what ranks enter before
//! they step.
//!
//! After the schedules of a model of message passing: which letter comes next, and how many come in
//! a round, is the wire's choice, and whoever uses a wire meets its contract under every choice.
#![tactic(auto)]

mod entry;
mod gate;
mod log;
mod meet_gate;
mod mem_wire;
mod starve_wire;
mod wire;

pub use cell_mail::Note;
pub use entry::Entry;
pub use gate::{Gate, OpenGate};
pub use log::Log;
pub use meet_gate::MeetGate;
pub use mem_wire::MemWire;
pub use starve_wire::StarveWire;
pub use wire::{PostRefused, Turn, Wire};
