ghost use Rattle.std.specs.Prelude.{◌≡◌};
ghost use Rattle.leap_frog.specs.declared.refused.StepRefused.TheVariants.{Memory};

use hot_units::Axis;
use std::alloc::AllocError;

/// Why a step was not made.
#[derive(Clone, Copy, Debug, PartialEq, Eq)]
pub enum StepRefused {
    /// This row, counted from 0, is the first that would leave the cube, and this is its first
    /// axis.
    Leaves { row: u32, axis: Axis },
    /// Want of memory.
    Memory,
}

impl From<AllocError> for StepRefused {
    ghost from_gives = { λ _ e. e ≡ Memory };

    fn from(_e: AllocError) -> StepRefused {
        StepRefused::Memory
    }
}

/// Why some steps were not all made.
#[derive(Clone, Copy, Debug, PartialEq, Eq)]
pub enum StepsRefused {
    /// In the step of this number, counted from 1, this row is the first that would leave the
    /// cube, and this is its first axis.
    Leaves { number: u32, row: u32, axis: Axis },
    /// Want of memory.
    Memory,
}
