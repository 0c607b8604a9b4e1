//! How far a rebuild has come, and how a step ends.

use qsg_num::EntryId;

/// How far a rebuild has come.
#[derive(Clone, Copy, Debug, PartialEq, Eq)]
pub enum Phase {
    /// The structure is to be connected to. The map that a START of before has left, which a call on a device ended, goes.
    Connect,
    /// The header of the data set is to be read for a map of this epoch of the structure. A structure that isn't active
    /// serves no user, and then no map is kept.
    Load {
        epoch: u32,
        is_served: bool,
    },
    /// The header has no map of this epoch. The entry of least id above this one is to be looked at, and the blocks that
    /// it lists are used in the map.
    Scan {
        epoch: u32,
        after: EntryId,
        is_open: bool,
    },
    /// The gate of the header isn't 0, and is to be written so.
    Shut,
    /// The gate reads 0, and is to be made safe.
    Sync,
}

/// How a step ended.
#[derive(Clone, Copy, Debug, PartialEq, Eq)]
pub enum RebuildTurn {
    /// The work goes on.
    More,
    /// The map is made, or there is none, and the gate is safely shut. The work has ended.
    Done,
}

/// Why a step wasn't made.
#[derive(Clone, Copy, Debug, PartialEq, Eq)]
pub enum RebuildError {
    /// There was no memory for it, and it has changed nothing.
    NoMemory,
    /// The device of the data set failed in it, and its count of faults rose.
    Failed,
}
