ghost use Rattle.std.specs.Prelude.{◌≡◌};
ghost use Rattle.body_set.specs.declared.fault.PushError.TheVariants.{Memory};

use hot_units::Axis;
use std::alloc::AllocError;
use thiserror::Error;

/// Why a row is refused. `row` is its number, counted from 0.
#[derive(Debug, Drop, Error)]
pub enum PushError {
    /// The set has 1,048,576 rows.
    #[error("too many rows")]
    TooMany,
    /// The place is outside the cube on this axis, and on no earlier one.
    #[error("row {row} is outside the cube on {axis:?}")]
    Outside { row: u32, axis: Axis },
    /// The mass is not 1 to 4,294,967,295.
    #[error("the mass of row {row} is out of range")]
    MassRange { row: u32 },
    /// The work weight is not 0 to 2^32 - 1.
    #[error("the work of row {row} is out of range")]
    WorkRange { row: u32 },
    /// The mass with that of all rows before is above 2^40.
    #[error("the mass of all rows up to row {row} is out of range")]
    MassSum { row: u32 },
    /// Memory ran out.
    #[error("out of memory")]
    Memory,
}

impl From<AllocError> for PushError {
    ghost from_gives = { λ _ e. e ≡ Memory };

    fn from(_e: AllocError) -> PushError {
        PushError::Memory
    }
}
