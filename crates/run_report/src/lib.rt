//! What a run over ranks shows: what each rank did, the branches, and the letters and rounds, as
//! text.
#![tactic(auto)]

mod cells;
mod laws;
mod report;
mod sample;
mod text;

pub use laws::numbers_are_counts;
pub use report::RunReport;
pub use sample::{ForceSum, Sample};
pub use text::{report_text, sample_text};
