//! How a call ends.

ghost use Rattle.std.specs.Prelude.{◌≡◌};
ghost use Rattle.qsg_run.specs.Statuses.{status_number};

/// How a call ended.
#[derive(Clone, Copy, Debug, PartialEq, Eq)]
pub enum Status {
    /// The script was read and run until every directive was answered and no system task had work, or only read, and what
    /// was asked for was written.
    Finished,
    /// The words are none that the program knows; the usage was written.
    Usage,
    /// The bytes are no script; its first fault was written, with its line.
    Script,
    /// The script was run until each actor that has work left waits; the report was written, with what they wait for.
    Stuck,
    /// The source failed; `read fault` was written.
    ReadFault,
    /// The sink failed, and took only a front of what was due.
    WriteFault,
    /// Memory was wanting; `no memory` was written.
    NoMemory,
    /// The rig failed to make a device; `rig fault` was written.
    RigFault,
}

impl Status {
    /// The exit status of the process.
    pub fn code(self) -> u8
        ensures { result ≡ status_number self }
    {
        match self {
            Status::Finished => 0,
            Status::Usage => 1,
            Status::Script => 2,
            Status::Stuck => 3,
            Status::ReadFault => 4,
            Status::WriteFault => 5,
            Status::NoMemory => 6,
            Status::RigFault => 7,
        }
    }
}
