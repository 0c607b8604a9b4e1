//! A request in progress.

ghost use Rattle.std.specs.Prelude.{◌≡◌};
ghost use Rattle.qsg_parts.specs.Owned.{owned};
ghost use Rattle.qsg_works.specs.Steps.{owner, begun, MayStep, NextWork, IsUnmade};

use qsg_commit::{CommitWork, StepError};
use qsg_disk::Disk;
use qsg_get::GetWork;
use qsg_num::{Member, TaskNo};
use qsg_parts::Parts;
use qsg_put::PutWork;
use qsg_requests::{Request, Turn};
use std::alloc::Global;

/// A request in progress, until a step ends it.
#[derive(Debug, Drop)]
pub enum Work {
    /// A PUT.
    Put(PutWork),
    /// A GET.
    Get(GetWork),
    /// A COMMIT or BACKOUT.
    Commit(CommitWork),
}

impl Work {
    /// A request of a task of a member, before its first step. Takes no memory.
    pub fn begin(member: Member, task: TaskNo, request: Request) -> Work
        ensures { result ≡ begun member task request }
    {
        match request {
            Request::Put(words) => Work::Put(PutWork::begin(member, task, words)),
            Request::Get { queue, select } => {
                Work::Get(GetWork::begin(member, task, queue, select))
            }
            Request::Commit => Work::Commit(CommitWork::commit(member, task)),
            Request::Backout => Work::Commit(CommitWork::backout(member, task)),
        }
    }

    /// Makes the next step. NoMemory: the work and the parts are as they were, but that the history may have more room.
    /// LogFailed: a write or a sync of the member's log failed, and nothing changed but its device. A step that ends the
    /// request leaves a work that isn't stepped again.
    pub fn step<D: Disk>(&mut self, alloc: Global, parts: &mut Parts<D>) -> Result<Turn, StepError>
        requires may { MayStep self.old (owned parts.old) }
        ensures next { NextWork self.old (owned parts.old) result self.new (owned parts.new) }
        ensures owner { owner self.new ≡ owner self.old }
        ensures unmade { IsUnmade result self.old (owned parts.old) self.new (owned parts.new) }
    {
        match self {
            Work::Put(work) => Ok(work.step(alloc, parts)?),
            Work::Get(work) => Ok(work.step(alloc, parts)?),
            Work::Commit(work) => work.step(alloc, parts),
        }
    }
}
