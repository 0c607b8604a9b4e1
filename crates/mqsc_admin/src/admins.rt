//! A command.

use qsg_num::{Name, RecoverKind, Wanted};

/// What a task asks for by a command. Structures, queues and members go by their names, which needn't be
/// defined.
#[derive(Debug, Drop)]
pub enum Admin {
    /// BACKUP CFSTRUCT: copies the persistent messages of a structure into the member's log.
    Backup(Name),
    /// RECOVER CFSTRUCT: recovers a structure that failed.
    Recover(Name, RecoverKind),
    /// RESET SMDS: changes access or status of a member's data set of a structure.
    ResetSmds(Name, Name, Wanted),
    /// DISPLAY CFSTATUS: shows the state of a structure.
    DisplayCfstatus(Name),
    /// DISPLAY QUEUE: shows the depth of a queue.
    DisplayQueue(Name),
    /// DISPLAY SMDS: shows access and status of the data sets of a structure.
    DisplaySmds(Name),
}
