//! Why a page isn't read.

ghost use Rattle.std.specs.Prelude.{◌≡◌};
ghost use Rattle.qsg_logread.specs.declared.fault.FeedError.TheVariants.{NoMemory};
ghost use Rattle.qsg_logread.specs.declared.fault.Stop.TheVariants.{NoMemory as StopNoMemory};

use qsg_num::LogWhy;
use std::alloc::{AllocError, AllocFailed};

/// Why a page wasn't read. The reader that it was fed to is as it was.
#[derive(Clone, Copy, Debug, PartialEq, Eq)]
pub enum FeedError {
    /// The page is bad, or a record that ends in it.
    Fault(LogWhy),
    /// Memory ran out.
    NoMemory,
}

impl From<AllocError> for FeedError {
    ghost from_gives = { λ _ e. e ≡ NoMemory };

    fn from(_: AllocError) -> Self {
        FeedError::NoMemory
    }
}

/// Why the records of a page's pieces weren't read.
#[derive(Clone, Copy, Debug, PartialEq, Eq)]
pub enum Stop {
    /// A record is bad, from this place on.
    Bad(u32),
    /// Memory ran out.
    NoMemory,
}

impl From<AllocError> for Stop {
    ghost from_gives = { λ _ e. e ≡ StopNoMemory };

    fn from(_: AllocError) -> Self {
        Stop::NoMemory
    }
}

impl<T: Drop> From<AllocFailed<T>> for Stop {
    ghost from_gives = { λ _ e. e ≡ StopNoMemory };

    fn from(_: AllocFailed<T>) -> Self {
        Stop::NoMemory
    }
}
