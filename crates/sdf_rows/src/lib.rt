//! Reads the rows of a body file, in any pieces.
#![tactic(auto)]

mod column;
mod layout_row;
mod raw_row;
mod reader;

pub use hot_units::RawRow;
pub use raw_row::{RowFault, RowStep};
pub use reader::Rows;
