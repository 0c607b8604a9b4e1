//! Why bytes aren't read.

ghost use Rattle.std.specs.Prelude.{◌≡◌};
ghost use Rattle.qsg_msg.specs.declared.fault.Stop.TheVariants.{NoMemory};

use std::alloc::{AllocError, AllocFailed};

/// Why no message was read.
#[derive(Clone, Copy, Debug, PartialEq, Eq)]
pub enum MessageFault {
    /// No message's spelling begins the input. The first `at` bytes of the input begin some spelling, and
    /// no more of them do.
    BadMessage { at: usize },
    /// Memory ran out.
    NoMemory,
}

/// Why a reader of a field stopped.
#[derive(Clone, Copy, Debug, PartialEq, Eq)]
pub enum Stop {
    /// What was read leaves the grammar where this many bytes of the input are left.
    Bad(usize),
    /// Memory ran out.
    NoMemory,
}

impl From<AllocError> for Stop {
    ghost from_gives = { λ _ e. e ≡ NoMemory };

    fn from(_: AllocError) -> Self {
        Stop::NoMemory
    }
}

impl<T: Drop> From<AllocFailed<T>> for Stop {
    ghost from_gives = { λ _ e. e ≡ NoMemory };

    fn from(_: AllocFailed<T>) -> Self {
        Stop::NoMemory
    }
}
