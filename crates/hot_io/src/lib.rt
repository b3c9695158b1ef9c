//! The outside of the program: a source of files and a sink of bytes, each with a count of its
//! faults, over memory and over the system.
//!
//! Both are after `Read` and `Write` of Rust's standard library. What they add is that each answer
//! [`Failed`] is counted, so a caller's contract can say that it comes from the outside alone.
#![tactic(auto)]

mod block;
mod limits;
mod mem_sink;
mod mem_source;
mod outside;
mod real;
#[cfg(test)]
mod tests;
mod writers;

pub use block::Block;
pub use limits::{BLOCK, MAX_OPENS, MAX_ROOM, NUMBER_ROOM};
pub use mem_sink::MemSink;
pub use mem_source::MemSource;
pub use outside::{Failed, Sink, Source};
pub use real::{ErrSink, FileSource, OutSink};
pub use writers::{write_all, write_pieces, write_text};
