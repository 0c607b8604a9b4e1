//! How a request ended, and why a step waits.

use qsg_msg::Message;
use qsg_num::{Actor, EntryId, Incarnation, LogWhy, Member, TaskNo, UnitName};
use qsg_offload::Placed;

/// What is short for the entry of a PUT.
#[derive(Clone, Copy, Debug, PartialEq, Eq)]
pub enum Short {
    /// Blocks of the owner's data set.
    Dataset,
    /// Elements of the list structure.
    Structure,
}

/// Why a request is refused. The numbers are the reason codes of IBM MQ; the exact cause of each is this project's own.
/// A refusal leaves the unit of the task as it was, but that the task may have drawn the unit's name. The exceptions are
/// those that a crash or a log brings; each says what it leaves.
#[derive(Clone, Copy, Debug, PartialEq, Eq)]
pub enum Reason {
    /// 2009: the task's member ended while the request was in progress, or while the task's unit had an operation, since
    /// the task's last answer that wasn't to a WAIT. The task holds no unit any more: where the unit is in the history it
    /// was committed, and else it is undone; a peer settles what is left of it.
    ConnectionBroken,
    /// 2016: the queue doesn't allow gets.
    GetInhibited,
    /// 2024: the unit has as many operations as a unit may have.
    SyncpointLimit,
    /// 2030: the body is longer than the queue takes.
    BodyTooLong,
    /// 2033: no message on offer is asked for.
    NoMessage,
    /// 2048: a persistent message for a structure that isn't recovered.
    PersistentNotAllowed,
    /// 2051: the queue doesn't allow puts.
    PutInhibited,
    /// 2053: the queue has as many messages as it may have.
    QueueFull {
        depth: u32,
    },
    /// 2085: no object has that name.
    UnknownObject,
    /// 2192: so many blocks or elements are needed, and only so many are free.
    StorageFull {
        place: Short,
        need: u32,
        free: u32,
    },
    /// 2373: the structure failed, is being recovered, or has a newer epoch.
    StructureFailed,
    /// NOLOG: the unit needs so many pages of the log, and only so many are free.
    NoLog {
        need: u32,
        free: u32,
    },
    /// DSFAULT: the owner of the data set may not use it, or a call on the data set failed in a step of this request.
    DataSetFault,
    /// DOWN: a CRASH of a member that isn't up. It changes nothing.
    Down,
    /// UP: a START of a member that is up. It changes nothing.
    Up,
    /// LOGFAULT: the log of that member can't be read, so START can't tell where it goes on. The member stays down, and
    /// no incarnation is used.
    LogFault {
        member: Member,
        why: LogWhy,
    },
    /// GAVEUP: a system task can't read the log of this incarnation that failed. The incarnation stays unresolved, its
    /// marks stay, and this task doesn't try it again until its own member next comes up.
    GaveUp {
        member: Member,
        incarnation: Incarnation,
        why: LogWhy,
    },
    /// NOTYET: this part of the group isn't built yet.
    NotYet,
}

/// How a request ended.
#[derive(Debug, Drop)]
pub enum Reply {
    /// The message was put, with this id, and its body went there.
    PutOk {
        id: EntryId,
        placed: Placed,
    },
    /// The unit ended with so many operations; None where the task had none.
    Unit {
        unit: Option<UnitName>,
        count: u32,
    },
    /// This message was got.
    Got(Message),
    /// The member is up again, as this incarnation.
    Started {
        incarnation: Incarnation,
    },
    /// A system task has done its part for this incarnation that failed: it settled so many of its entries, and none is
    /// left that its log or the absence of a COMMIT there doesn't decide.
    Resolved {
        member: Member,
        incarnation: Incarnation,
        settled: u32,
    },
    /// It is done.
    Done,
    /// It was refused.
    Refused(Reason),
}

/// Why an actor's step waits.
#[derive(Clone, Copy, Debug, PartialEq, Eq)]
pub enum Cause {
    /// Its member isn't up.
    Down,
    /// That task of its member is writing the run of its unit.
    LogBusy(TaskNo),
    /// That actor has given fewer answers than so many.
    Until(Actor, u32),
    /// That task of the member which is to stop has a unit with operations, or a request or work in progress.
    Quiescing(TaskNo),
    /// That task reads the log that a START would read and then write. The member of the log isn't up; the task is that
    /// of a peer.
    Reading(Member, TaskNo),
}

/// How a step of a request ended.
#[derive(Debug, Drop)]
pub enum Turn {
    /// The request has further steps.
    More,
    /// The request ended.
    Ended(Reply),
    /// The step wasn't made, and changed nothing.
    Waits(Cause),
}
