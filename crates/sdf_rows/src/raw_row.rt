//! What the reader of rows gives.
use hot_units::RawRow;

/// Why the bytes behind a header are not its rows.
#[derive(Clone, Copy, Debug, PartialEq, Eq)]
pub enum RowFault {
    /// The input ends within the row of this number, or before it where the stated number of rows is
    /// not reached (B1).
    Truncated { row: u64 },
    /// A byte follows the last of a stated number of rows (B2).
    Trailing,
}

/// What the reader did with a piece.
#[derive(Clone, Copy, Debug, PartialEq, Eq)]
pub struct RowStep {
    /// How many bytes of the piece it took: those up to the end of the current row.
    pub taken: usize,
    /// The current row, or None where the piece ends before it does.
    pub row: Option<RawRow>,
}
