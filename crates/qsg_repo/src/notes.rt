//! What is kept of the last backup of a structure.

use qsg_num::{EntryId, PageNo, UnitName};

/// The last backup of a structure, or its last purge.
#[derive(Clone, Copy, Debug, PartialEq, Eq)]
pub struct Note {
    /// The name that the backup, or the purge, drew.
    pub backup: UnitName,
    /// The first page of the backup in the log of the member that made it; 0 for a purge.
    pub from: PageNo,
    /// The page after its last; 0 for a purge.
    pub until: PageNo,
    /// The backup has entries up to this one; later ones are in the logs alone.
    pub top: EntryId,
    /// For each member the page of its log from which RECOVER reads.
    pub low: [PageNo; 8],
}
