//! The bodies of a list of body files, read from a source in pieces of at most 4,096 bytes: headers,
//! rows and checks in one pass, in which each fault is answered as soon as the bytes decide it.
#![tactic(auto)]

mod cube;
mod fault;
mod files;
mod laws;
mod limits;
mod read;
mod reader;
mod rows;

pub use fault::{BodyFault, FileFault, FoundFault, ReadError};
pub use files::read_bodies;
pub use laws::files_have_verdicts;
