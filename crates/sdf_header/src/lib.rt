//! Reads the header of a body file, in any pieces.
#![tactic(auto)]

mod columns;
mod document;
mod extent;
mod fault;
mod generated;
mod header_fault;
mod kind;
mod layout;
mod limits;
mod parts;
mod pieces;
mod reader;
mod statement;
mod types;
mod verdict;

pub use generated::generated_header_reads;
pub use header_fault::{ColName, HeaderFault, ParamName};
pub use kind::Whole;
pub use layout::{Col, HeaderError, Layout, Order};
pub use pieces::read_pieces;
pub use reader::{Fed, HeaderReader};
