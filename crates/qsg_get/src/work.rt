//! A get in progress.

ghost use Rattle.std.specs.Prelude.{◌≡◌, IfOk, OnErr};
ghost use Rattle.qsg_get.specs.declared.phases.Phase.TheVariants as phase;
ghost use Rattle.qsg_parts.specs.Owned.{Owned};
ghost use Rattle.qsg_get.specs.Steps.{stepped, phase_after};

use crate::phases::Phase;
use crate::steps::{check_and_reserve, connect, take};
use qsg_disk::Disk;
use qsg_lists::Selector;
use qsg_num::{Member, QueueName, TaskNo};
use qsg_parts::Parts;
use qsg_requests::{Reason, Reply, Turn};
use std::alloc::{AllocError, Global};
use std::marker::Model;

/// Goes on to a phase, unless the request is refused.
fn advance(phase: &mut Phase, answer: Result<Phase, Reason>) -> Turn
    ensures next { (p : Owned) → record { turn = result; phase = phase.new; parts = p } ≡ stepped answer phase.old p }
    ensures phase { phase.new ≡ phase_after answer phase.old }
{
    match answer {
        Ok(next) => {
            *phase = next;
            Turn::More
        }
        Err(reason) => Turn::Ended(Reply::Refused(reason)),
    }
}

/// A get in progress, until a step ends it.
#[derive(Debug, Drop)]
pub struct GetWork {
    member: Member,
    task: TaskNo,
    queue: QueueName,
    select: Selector,
    phase: Phase,
}

impl Model for GetWork {
    ghost use Rattle.qsg_get.specs.Works.{Work, IsOwn};

    ghost Value = { Work };

    ghost view = { λ w. record { member = w.member; task = w.task; queue = w.queue; select = w.select; phase = w.phase } };

    ghost invariant = { λ w. IsOwn w.member w.phase };
}

impl GetWork {
    ghost use Rattle.qsg_parts.specs.Owned.{owned};
    ghost use Rattle.qsg_get.specs.Steps.{next_get};
    ghost use Rattle.qsg_get.specs.Works.{IsOwn};
    ghost use Rattle.qsg_get.specs.Needs.{MayStep};

    /// A get by a task of a member, before its first step. Takes no memory.
    pub fn begin(member: Member, task: TaskNo, queue: QueueName, select: Selector) -> GetWork
        ensures { result ≡ record { member = member; task = task; queue = queue; select = select; phase = phase.Check } }
    {
        GetWork {
            member,
            task,
            queue,
            select,
            phase: Phase::Check,
        }
    }

    /// What every get keeps: its unit is of its member.
    pub fn kept(&self)
        ensures { IsOwn self.now.member self.now.phase }
    {
        let _phase = &self.phase;
    }

    /// Makes the next step. A step that ends the get leaves the work as it was; it isn't stepped again.
    pub fn step<D: Disk>(&mut self, alloc: Global, parts: &mut Parts<D>) -> Result<Turn, AllocError>
        requires may { MayStep self.old (owned parts.old) }
        ensures next { IfOk result (λ turn. record { turn = turn; phase = self.new.phase; parts = owned parts.new } ≡ next_get self.old (owned parts.old)) }
        ensures same { self.new ≡ record self.old { phase = self.new.phase } }
        ensures unchanged { OnErr result (parts.new ≡ parts.old) }
        ensures stays { OnErr result (self.new ≡ self.old) }
    {
        match self.phase {
            Phase::Check => {
                let answer = check_and_reserve(
                    alloc,
                    parts,
                    self.member,
                    self.task,
                    self.queue.as_str(),
                );
                Ok(advance(&mut self.phase, answer))
            }
            Phase::Connect { unit, terms } => {
                let answer = connect(parts, self.task, unit, terms);
                Ok(advance(&mut self.phase, answer))
            }
            Phase::Take { unit, terms, epoch } => take(
                alloc,
                parts,
                self.task,
                &self.queue,
                &self.select,
                unit,
                terms,
                epoch,
            ),
        }
    }
}
