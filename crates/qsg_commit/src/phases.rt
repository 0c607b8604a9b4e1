//! How far a COMMIT or BACKOUT has come, and why a step isn't made.

ghost use Rattle.std.specs.Prelude.{◌≡◌};
ghost use Rattle.qsg_commit.specs.declared.phases.StepError.TheVariants as error;

use qsg_disk::Failed;
use qsg_num::{TaskNo, UnitName};
use std::alloc::AllocError;

/// How far a COMMIT or BACKOUT has come. `count` is the number of the unit's operations.
#[derive(Clone, Copy, Debug, PartialEq, Eq)]
pub enum Phase {
    /// A COMMIT takes the latch of the log next.
    Latch,
    /// The pages of the unit's run are being written.
    Pages { unit: UnitName, count: u32 },
    /// The unit is committed, and its marks come off.
    Settle { unit: UnitName, count: u32 },
    /// All its marks are off. The member tells its low page next.
    Publish { unit: UnitName, count: u32 },
    /// A BACKOUT gives the unit up next.
    GiveUp,
    /// The unit is given up, and its marks come off.
    Undo { unit: UnitName, count: u32 },
}

/// What a COMMIT found at its first step.
#[derive(Clone, Copy, Debug, PartialEq, Eq)]
pub enum Taken {
    /// The task has no unit with an operation.
    Nothing,
    /// That task of the member has the latch.
    Busy(TaskNo),
    /// The latch was free, and this unit, of so many operations, has it now.
    Begun { unit: UnitName, count: u32 },
}

/// Why a step wasn't made.
#[derive(Clone, Copy, Debug, PartialEq, Eq)]
pub enum StepError {
    /// There was no memory. Nothing changed.
    NoMemory,
    /// A write or a sync of the member's log failed. Nothing changed but its device, and the member can't go on.
    LogFailed,
}

impl From<AllocError> for StepError {
    ghost from_gives = { λ _ e. e ≡ error.NoMemory };

    fn from(_: AllocError) -> Self {
        StepError::NoMemory
    }
}

impl From<Failed> for StepError {
    ghost from_gives = { λ _ e. e ≡ error.LogFailed };

    fn from(_: Failed) -> Self {
        StepError::LogFailed
    }
}
