//! How far a put has come.

use crate::checking::Terms;
use qsg_num::UnitName;

/// How far a put has come.
#[derive(Clone, Copy, Debug, PartialEq, Eq)]
pub enum Phase {
    /// Its words are to be checked.
    Check,
    /// Pages of the log are reserved for this unit; the structure is to be connected to.
    Connect {
        unit: UnitName,
        terms: Terms,
    },
    /// The entry is to be written, in this epoch of the structure.
    Write {
        unit: UnitName,
        terms: Terms,
        epoch: u32,
    },
}
