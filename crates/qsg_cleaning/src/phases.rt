//! How far a cleaning has come, and how a step ends.

use qsg_num::EntryId;

/// How far a cleaning has come.
#[derive(Clone, Copy, Debug, PartialEq, Eq)]
pub enum Phase {
    /// The structure is to be connected to.
    Connect,
    /// In this epoch of the structure the entry is looked for.
    Search { epoch: u32 },
    /// In this epoch of the structure the entry of this id is forgotten.
    Forget { epoch: u32, id: EntryId },
}

/// How a step ended.
#[derive(Clone, Copy, Debug, PartialEq, Eq)]
pub enum CleaningTurn {
    /// The work goes on.
    More,
    /// The entry is forgotten, or there is none to forget any more. The work has ended, without an answer.
    Done,
}
