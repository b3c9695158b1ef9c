//! Why files give no bodies.
ghost use Rattle.std.specs.Prelude.{◌≡◌};
ghost use Rattle.body_file.specs.Faults as faults;

use body_set::PushError;
use hot_units::Axis;
use sdf_header::{HeaderError, HeaderFault};
use sdf_rows::RowFault;
use std::alloc::AllocError;
use thiserror::Error;

/// Why a row gives no body, in the order of the tests. `row` is its number over all files, counted
/// from 0.
#[derive(Clone, Copy, Debug, PartialEq, Eq)]
pub enum BodyFault {
    /// The row is the 1,048,577th, one more than there may be.
    TooMany,
    /// The place is outside the cube on this axis, and on no earlier one.
    Outside { row: u32, axis: Axis },
    /// The mass is not 1 to 4,294,967,295.
    MassRange { row: u32 },
    /// The work weight is not 0 to 2^32 - 1.
    WorkRange { row: u32 },
    /// The mass with that of all rows before is above 2^40.
    MassSum { row: u32 },
}

/// Why a file is refused, in the order of the tests: for its header, for a cube that is not that of
/// the first file, for a row, or for how its rows end, within a row or with bytes too many.
#[derive(Clone, Copy, Debug, PartialEq, Eq)]
pub enum FileFault {
    Header(HeaderFault),
    OtherCube,
    Body(BodyFault),
    End(RowFault),
}

/// The fault of a list of files: that of the first that has one. `file` is its number in the list,
/// counted from 1.
#[derive(Clone, Copy, Debug, PartialEq, Eq)]
pub struct FoundFault {
    pub fault: FileFault,
    pub file: usize,
}

/// Why no bodies were read: the source, the files, or memory.
#[derive(Debug, Drop, Error)]
pub enum ReadError {
    /// The source failed, and the bytes taken before that decide no fault.
    #[error("read fault")]
    Broken,
    /// The files are refused for their first fault, which the bytes taken decide.
    #[error("the files are refused: {0:?}")]
    Refused(FoundFault),
    /// Memory ran out.
    #[error("out of memory")]
    Memory,
}

/// Why one file was not read.
#[derive(Drop)]
pub enum FileError {
    Broken,
    Refused(FileFault),
    Memory,
}

impl From<AllocError> for FileError {
    ghost use Rattle.body_file.specs.declared.fault.FileError.TheVariants.{Memory};

    ghost from_gives = { λ _ e. e ≡ Memory };

    fn from(_e: AllocError) -> FileError {
        FileError::Memory
    }
}

/// The answer where a header is refused.
pub fn header_error(error: HeaderError) -> FileError
    ensures { result ≡ faults.header_error error }
{
    match error {
        HeaderError::Fault(fault) => FileError::Refused(FileFault::Header(fault)),
        HeaderError::Memory => FileError::Memory,
    }
}

/// The answer where a row is refused.
pub fn row_error(error: PushError) -> FileError
    ensures { result ≡ faults.row_error error }
{
    let fault = match error {
        PushError::TooMany => BodyFault::TooMany,
        PushError::Outside { row, axis } => BodyFault::Outside { row, axis },
        PushError::MassRange { row } => BodyFault::MassRange { row },
        PushError::WorkRange { row } => BodyFault::WorkRange { row },
        PushError::MassSum { row } => BodyFault::MassSum { row },
        PushError::Memory => return FileError::Memory,
    };
    FileError::Refused(FileFault::Body(fault))
}
