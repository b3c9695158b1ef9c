//! What a split over ranks shows: the share of each rank, the branches, and the top cells that all
//! ranks share, and their text.
#![tactic(auto)]

mod branches;
mod laws;
mod lists;
mod share;
mod table;
mod text;
mod tops;

pub use branches::branches_of_ranks;
pub use laws::cells_are_shown;
pub use share::Share;
pub use table::SplitTable;
pub use text::split_text;
