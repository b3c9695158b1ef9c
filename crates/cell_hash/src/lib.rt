//! A table by cell keys: the low bits of a key choose its bucket, and a bucket's chain goes by
//! places in one vector and forks by the bits above.
#![tactic(auto)]

mod chains;
mod laws;
pub mod limits;
mod table;

pub use laws::last_writes_stand;
pub use table::{CellTable, InsertRefused};
