//! The rounds of all ranks, over any wire and gate; it hands on those of the crate wire.
#![tactic(auto)]

mod rounds;

pub use rounds::run;
pub use wire::{
    Entry, Gate, Log, MeetGate, MemWire, Note, OpenGate, PostRefused, StarveWire, Turn, Wire,
};
