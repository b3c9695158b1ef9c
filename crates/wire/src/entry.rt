// The entries of a log.
use cell_mail::{Letter, Note};

/// One thing that happened on a wire: a letter was posted, of which the log has a copy; a letter
/// was taken; or a round ended.
#[derive(Drop)]
pub enum Entry {
    Posted(Letter),
    Taken(Note),
    Round,
}
