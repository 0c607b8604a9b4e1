//! What a record of a log is.

use crate::sets::StructSet;
use qsg_msg::Message;
use qsg_num::{EntryId, PageNo, StructNo, UnitName};

/// How an entry was marked when a backup wrote it.
#[derive(Clone, Copy, Debug, PartialEq, Eq)]
pub enum LogMark {
    Visible,
    /// Put by this unit, which wasn't settled yet.
    PutBy(UnitName),
    /// Got by this unit, which wasn't settled yet.
    GotBy(UnitName),
}

/// A record of a log.
#[derive(Debug, Drop)]
pub enum LogRecord {
    /// The unit put this persistent message.
    Put(UnitName, Message),
    /// The unit got the persistent message of this id from this structure.
    Got(UnitName, EntryId, StructNo),
    /// The unit is committed. Logs of pages of version 1 end a unit so.
    Commit(UnitName),
    /// A backup of a structure begins.
    BackupStart {
        backup: UnitName,
        structure: StructNo,
        /// The last id that the structure had given.
        top: EntryId,
        /// The low page of each member's log.
        low: [PageNo; 8],
    },
    /// A message that the backup found, and its mark.
    BackupEntry(UnitName, LogMark, Message),
    /// The backup has ended, with so many entries.
    BackupEnd {
        backup: UnitName,
        structure: StructNo,
        count: u32,
    },
    /// The unit is committed; its operations were on these structures.
    CommitIn(UnitName, StructSet),
}
