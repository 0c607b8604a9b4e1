//! Why an actor's step waits.

ghost use Rattle.std.specs.Prelude.{◌≡◌, ◌++◌, OnOk};
ghost use Rattle.qsg_answers.specs.Waits.{actor_text, cause_text};

use crate::labels::{Labels, push_member};
use crate::texts::{push_counted, push_text};
use qsg_num::Actor;
use qsg_requests::Cause;
use std::alloc::AllocError;

/// An actor: a task's member and number, or the operator.
pub fn push_actor(out: &mut Vec<u8>, labels: &Labels, actor: Actor) -> Result<(), AllocError>
    ensures { OnOk result (out.new.items ≡ out.old.items ++ actor_text labels.now actor) }
{
    match actor {
        Actor::Task(member, task) => {
            push_member(out, labels, member)?;
            push_counted(out, b" ", u64::from(task.get()))
        }
        Actor::Operator => push_text(out, b"OPERATOR"),
    }
}

/// Why a step waits.
pub fn push_cause(out: &mut Vec<u8>, labels: &Labels, cause: Cause) -> Result<(), AllocError>
    ensures { OnOk result (out.new.items ≡ out.old.items ++ cause_text labels.now cause) }
{
    match cause {
        Cause::Down => push_text(out, b"down"),
        Cause::LogBusy(task) => push_counted(out, b"logbusy ", u64::from(task.get())),
        Cause::Until(actor, count) => {
            push_text(out, b"until ")?;
            push_actor(out, labels, actor)?;
            push_counted(out, b" ", u64::from(count))
        }
        Cause::Quiescing(task) => push_counted(out, b"quiescing ", u64::from(task.get())),
        Cause::Reading(member, task) => {
            push_text(out, b"reading ")?;
            push_actor(out, labels, Actor::Task(member, task))
        }
    }
}
