//! A COMMIT or BACKOUT in progress.

ghost use Rattle.std.specs.Prelude.{◌≡◌, Ok};
ghost use Rattle.qsg_parts.specs.Owned.{owned};
ghost use Rattle.qsg_commit.specs.declared.phases.Phase.TheVariants as phase;
ghost use Rattle.qsg_commit.specs.Next.{NextCommit, unit_ended, nothing_ended};
ghost use Rattle.qsg_commit.specs.Needs.{MayStep};

use crate::committing::{take_latch, write_page};
use crate::ending::{give_up, pending, publish, settle, undo};
use crate::phases::{Phase, StepError, Taken};
use qsg_disk::Disk;
use qsg_num::{Member, TaskNo, UnitName};
use qsg_parts::Parts;
use qsg_requests::{Cause, Reply, Turn};
use std::alloc::Global;
use std::marker::Model;

/// A COMMIT or BACKOUT of a task, step by step.
#[derive(Debug, Drop)]
pub struct CommitWork {
    member: Member,
    task: TaskNo,
    phase: Phase,
}

impl Model for CommitWork {
    ghost use Rattle.qsg_commit.specs.Works.{Work};

    ghost Value = { Work };

    ghost view = { λ w. record { member = w.member; task = w.task; phase = w.phase } };
}

/// The answer of a unit that ended, with the number of its operations.
fn ended(unit: UnitName, count: u32) -> Turn
    ensures { result ≡ unit_ended unit count }
{
    Turn::Ended(Reply::Unit {
        unit: Some(unit),
        count,
    })
}

/// The answer where a task has no unit with an operation.
fn nothing() -> Turn
    ensures { result ≡ nothing_ended }
{
    Turn::Ended(Reply::Unit {
        unit: None,
        count: 0,
    })
}

impl CommitWork {
    /// A COMMIT of a task.
    pub fn commit(member: Member, task: TaskNo) -> CommitWork
        ensures { result ≡ record { member = member; task = task; phase = phase.Latch } }
    {
        CommitWork {
            member,
            task,
            phase: Phase::Latch,
        }
    }

    /// A BACKOUT of a task.
    pub fn backout(member: Member, task: TaskNo) -> CommitWork
        ensures { result ≡ record { member = member; task = task; phase = phase.GiveUp } }
    {
        CommitWork {
            member,
            task,
            phase: Phase::GiveUp,
        }
    }

    /// Makes the next step. Only the first step of a COMMIT takes memory. Where a step isn't made, the work is as it was.
    pub fn step<D: Disk>(&mut self, alloc: Global, parts: &mut Parts<D>) -> Result<Turn, StepError>
        requires may { MayStep self.old (owned parts.old) }
        ensures next { NextCommit self.old (owned parts.old) result self.new (owned parts.new) }
    {
        match self.phase {
            Phase::Latch => self.latch(alloc, parts),
            Phase::Pages { unit, count } => {
                if write_page(alloc, parts, unit, self.task)? {
                    self.phase = Phase::Settle { unit, count };
                }
                Ok(Turn::More)
            }
            Phase::Settle { unit, count } => {
                if settle(parts, unit, self.task) {
                    self.phase = Phase::Publish { unit, count };
                }
                Ok(Turn::More)
            }
            Phase::Publish { unit, count } => {
                publish(alloc, parts, unit, self.task);
                Ok(ended(unit, count))
            }
            Phase::GiveUp => Ok(self.give_up(alloc, parts)),
            Phase::Undo { unit, count } => {
                if undo(alloc, parts, unit, self.task) {
                    return Ok(ended(unit, count));
                }
                Ok(Turn::More)
            }
        }
    }

    /// The first step of a COMMIT.
    fn latch<D: Disk>(&mut self, alloc: Global, parts: &mut Parts<D>) -> Result<Turn, StepError>
        requires phase { self.old.phase ≡ phase.Latch }
        requires may { MayStep self.old (owned parts.old) }
        ensures next { NextCommit self.old (owned parts.old) result self.new (owned parts.new) }
    {
        match take_latch(alloc, parts, self.member, self.task)? {
            Taken::Nothing => Ok(nothing()),
            Taken::Busy(busy) => Ok(Turn::Waits(Cause::LogBusy(busy))),
            Taken::Begun { unit, count } => {
                self.phase = Phase::Pages { unit, count };
                Ok(Turn::More)
            }
        }
    }

    /// The first step of a BACKOUT.
    fn give_up<D: Disk>(&mut self, alloc: Global, parts: &mut Parts<D>) -> Turn
        requires phase { self.old.phase ≡ phase.GiveUp }
        requires may { MayStep self.old (owned parts.old) }
        ensures next { NextCommit self.old (owned parts.old) (Ok result) self.new (owned parts.new) }
    {
        let Some((unit, count)) = pending(&parts.managers, self.member, self.task) else {
            return nothing();
        };
        if give_up(alloc, parts, unit, self.task) {
            return ended(unit, count);
        }
        self.phase = Phase::Undo { unit, count };
        Turn::More
    }
}
