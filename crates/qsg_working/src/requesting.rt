//! A step of a task's request.

ghost use Rattle.std.specs.Prelude.{◌≡◌, ◌≤◌, ◌||◌, true, false, length, IfOk, OnErr, IsOk, IsSome, Some, None, Err};
ghost use Rattle.std.specs.List.{AllByRecursion};
ghost use Rattle.qsg_num.specs.declared.ids.Actor.TheVariants as actor;
ghost use Rattle.qsg_objects.specs.declared.directives.Directive.{Directive};
ghost use Rattle.qsg_objects.specs.declared.plans.MemberDef.{MemberDef};
ghost use Rattle.qsg_agenda.specs.Courses.{next_of};

use crate::hands::{give_back, work_of};
use crate::replies::without_room;
use crate::working::Working;
use qsg_disk::Disk;
use qsg_num::{Actor, Member, TaskNo};
use qsg_objects::MemberDefs;
use qsg_requests::{Reason, Reply, Turn};
use qsg_step::Step;
use qsg_works::{StepError, Work};
use std::alloc::{AllocError, Global};

/// What is left of the bytes of a member's log that weren't safe where a call on its device fails.
fn pick_of(members: &MemberDefs, member: Member) -> u64 {
    match members.as_slice().get(member.index()) {
        Some(definition) => definition.pick,
        None => 0,
    }
}

impl<D: Disk> Working<D> {
    ghost use Rattle.qsg_commit.specs.declared.phases.StepError.TheVariants.{NoMemory, LogFailed};
    ghost use Rattle.qsg_requests.specs.declared.replies.Reason.TheVariants as reason;
    ghost use Rattle.qsg_requests.specs.declared.replies.Reply.TheVariants as reply;
    ghost use Rattle.qsg_step.specs.declared.step.Step.TheVariants as steps;
    ghost use Rattle.qsg_step.specs.Needs.{MayEnd, MayWork};
    ghost use Rattle.qsg_step.specs.States.{is_due, IsCourseRight};
    ghost use Rattle.qsg_step.specs.Steps.{with_answer, work_before, told_so, RequestSteps, WorkSteps, IsUnmade};
    ghost use Rattle.qsg_works.specs.InHand.{work_of, with_work};
    ghost use Rattle.qsg_working.specs.Hands.{returned, put_in_hand, IsSettled};
    ghost use Rattle.qsg_working.specs.Needs.{IsWorkable, is_ending};
    ghost use Rattle.qsg_working.specs.Views.{state_of};

    /// Gives an actor's answer to its next directive.
    pub fn answer(&mut self, actor: Actor, reply: Reply) -> Step
        requires { IsSome (next_of actor self.old.agenda) }
        ensures moved { result ≡ steps.Moved }
        ensures answered { (d : Directive) → next_of actor self.old.agenda ≡ Some d → state_of self.new ≡ with_answer actor d reply (state_of self.old) }
    {
        let at = self.parts.history.len() as u64;
        self.agenda.answer(actor, reply, at);
        Step::Moved
    }

    /// Makes the next step of a task's request, or answers it 2009 where that is due.
    pub fn request(
        &mut self,
        alloc: Global,
        member: Member,
        task: TaskNo,
    ) -> Result<Step, AllocError>
        requires workable { IsWorkable (state_of self.old) }
        requires may { (d : Directive) → next_of (actor.Task member task) self.old.agenda ≡ Some d → is_due member task self.old.due ≡ false → MayWork member task (work_before member task d (state_of self.old)) (state_of self.old) }
        requires next { IsSome (next_of (actor.Task member task) self.old.agenda) }
        ensures next { IfOk result (λ step. (d : Directive) → next_of (actor.Task member task) self.old.agenda ≡ Some d → RequestSteps (is_due member task self.old.due) member task d (state_of self.old) step (state_of self.new)) }
        ensures unmade { OnErr result (IsUnmade (state_of self.old) (state_of self.new)) }
        ensures settles { (is_due member task self.old.due || is_ending (work_of member task self.old.works)) ≡ true → IsOk result }
    {
        if self.due.is_due(member, task) {
            return Ok(self.tell_so(member, task));
        }
        self.work(alloc, member, task)
    }

    /// Answers the next request of a task 2009, and does nothing else.
    fn tell_so(&mut self, member: Member, task: TaskNo) -> Step
        requires { IsSome (next_of (actor.Task member task) self.old.agenda) }
        ensures moved { result ≡ steps.Moved }
        ensures told { (d : Directive) → next_of (actor.Task member task) self.old.agenda ≡ Some d → state_of self.new ≡ told_so member task d (state_of self.old) }
    {
        self.due.set(member, task, false);
        self.answer(
            Actor::Task(member, task),
            Reply::Refused(Reason::ConnectionBroken),
        )
    }

    /// Makes a step of the work that a task has in hand, or the first one of its next request.
    fn work(&mut self, alloc: Global, member: Member, task: TaskNo) -> Result<Step, AllocError>
        requires workable { IsWorkable (state_of self.old) }
        requires may { (d : Directive) → next_of (actor.Task member task) self.old.agenda ≡ Some d → MayWork member task (work_before member task d (state_of self.old)) (state_of self.old) }
        requires next { IsSome (next_of (actor.Task member task) self.old.agenda) }
        ensures next { IfOk result (λ step. (d : Directive) → next_of (actor.Task member task) self.old.agenda ≡ Some d → WorkSteps member task d (work_before member task d (state_of self.old)) (state_of self.old) step (state_of self.new)) }
        ensures unmade { OnErr result (IsUnmade (state_of self.old) (state_of self.new)) }
        ensures settles { is_ending (work_of member task self.old.works) ≡ true → IsOk result }
    {
        let Some((mut work, in_hand)) = work_of(alloc, &self.agenda, &mut self.works, member, task)?
        else {
            return Ok(Step::Done);
        };
        let at = self.parts.history.len() as u64;
        let made = work.step(alloc, &mut self.parts);
        self.settle(alloc, member, task, work, in_hand, made, at)
    }

    /// What is made of a step of a work that was taken out of its task's hand. `at` is the length that the history had
    /// before it.
    fn settle(
        &mut self,
        alloc: Global,
        member: Member,
        task: TaskNo,
        work: Work,
        in_hand: bool,
        made: Result<Turn, StepError>,
        at: u64,
    ) -> Result<Step, AllocError>
        requires next { IsSome (next_of (actor.Task member task) self.old.agenda) }
        requires fails { made ≡ Err LogFailed → MayEnd member (put_in_hand member task work (state_of self.old)) × (length self.old.parts.structures ≤ 4) }
        ensures settled { IfOk result (λ step. (d : Directive) → next_of (actor.Task member task) self.old.agenda ≡ Some d → IsSettled member task d at in_hand made work (state_of self.old) step (state_of self.new)) }
        ensures unmade { OnErr result ((made ≡ Err NoMemory) × (state_of self.new ≡ record (state_of self.old) { works = returned in_hand member task work self.old.works })) }
    {
        match made {
            Ok(Turn::More) => {
                self.works.put(member, task, work);
                Ok(Step::Moved)
            }
            Ok(Turn::Ended(reply)) => {
                self.agenda
                    .answer(Actor::Task(member, task), without_room(alloc, reply), at);
                Ok(Step::Moved)
            }
            Ok(Turn::Waits(cause)) => {
                give_back(&mut self.works, member, task, work, in_hand);
                Ok(Step::Waits(cause))
            }
            Err(StepError::NoMemory) => {
                give_back(&mut self.works, member, task, work, in_hand);
                Err(AllocError)
            }
            Err(StepError::LogFailed) => {
                self.works.put(member, task, work);
                let pick = pick_of(&self.members, member);
                self.end(alloc, member, pick);
                Ok(Step::Moved)
            }
        }
    }
}
