//! How far the work has come, and how a step ends.

ghost use Rattle.std.specs.Prelude.{◌≡◌};

use qsg_lists::Connection;
use qsg_manager::MarkedEntry;
use qsg_num::{EntryId, Incarnation, LogWhy, Member, StructNo};

/// An incarnation of a member that failed.
#[derive(Clone, Copy, Debug, PartialEq, Eq)]
pub struct FailedLife {
    pub member: Member,
    pub incarnation: Incarnation,
}

/// How far the work has come.
#[derive(Clone, Copy, Debug, PartialEq, Eq)]
pub enum Phase {
    /// A failed incarnation is looked for.
    Find,
    /// The page of its member's log is asked for from which it is resolved.
    Low(FailedLife),
    /// Its log is read, and its marks come off.
    At { of: FailedLife, stage: Stage },
}

/// How far a failed incarnation is resolved.
#[derive(Clone, Copy, Debug, PartialEq, Eq)]
pub enum Stage {
    /// The log is being read.
    Read,
    /// The log was read. This structure is to be connected to.
    Connect(StructNo),
    /// In this use of a structure the next mark above an id is looked for.
    Search {
        connection: Connection,
        after: EntryId,
    },
    /// This mark comes off.
    Settle {
        connection: Connection,
        found: MarkedEntry,
    },
    /// All structures were gone through.
    Resolve,
}

/// How a step ended.
#[derive(Clone, Copy, Debug, PartialEq, Eq)]
pub enum PeerTurn {
    /// The work goes on.
    More,
    /// There is no failed incarnation to work on. The work has ended without an answer.
    Nothing,
    /// No mark of the incarnation stands, and the work took so many off. The work has ended.
    Resolved {
        member: Member,
        incarnation: Incarnation,
        settled: u32,
    },
    /// The log can't be read, so that the incarnation stays unresolved. The work has ended.
    GaveUp {
        member: Member,
        incarnation: Incarnation,
        why: LogWhy,
    },
}

/// There was no memory for a step, which has changed nothing.
#[derive(Clone, Copy, Debug, PartialEq, Eq)]
pub struct NoMemory;
