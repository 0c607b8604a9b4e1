//! How far a get has come.

use crate::checking::Terms;
use qsg_num::UnitName;

/// How far a get has come.
#[derive(Clone, Copy, Debug, PartialEq, Eq)]
pub enum Phase {
    /// The queue is to be checked.
    Check,
    /// Pages of the log are reserved for this unit; the structure is to be connected to.
    Connect {
        unit: UnitName,
        terms: Terms,
    },
    /// The entry is to be taken, in this epoch of the structure.
    Take {
        unit: UnitName,
        terms: Terms,
        epoch: u32,
    },
}
