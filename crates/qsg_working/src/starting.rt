//! A step of a START.

ghost use Rattle.std.specs.Prelude.{◌≡◌, true, not, IfOk, OnErr, IsOk, IsSome, Some, None};
ghost use Rattle.qsg_num.specs.declared.ids.Actor.TheVariants as actor;
ghost use Rattle.qsg_objects.specs.declared.directives.Directive.{Directive};
ghost use Rattle.qsg_agenda.specs.Courses.{next_of};
ghost use Rattle.qsg_step.specs.Steps.{start_or, start_reply};

use crate::working::Working;
use qsg_disk::Disk;
use qsg_num::{Actor, Member};
use qsg_requests::{Reason, Reply};
use qsg_start::{StartTurn, StartWork};
use qsg_step::Step;
use std::alloc::{AllocError, Global};

/// Takes the START in progress out of hand, or begins a new one.
fn take_start(alloc: Global, starting: &mut Option<StartWork>, member: Member) -> StartWork
    ensures given { result ≡ start_or member starting.old }
    ensures left { starting.new ≡ None }
{
    match starting.take() {
        Some(work) => work,
        None => StartWork::begin(alloc, member),
    }
}

/// What the operator is answered, once a START has ended.
fn start_reply(member: Member, turn: StartTurn) -> Option<Reply>
    ensures { result ≡ start_reply member turn }
{
    match turn {
        StartTurn::More => None,
        StartTurn::Up => Some(Reply::Refused(Reason::Up)),
        StartTurn::Started(incarnation) => Some(Reply::Started { incarnation }),
        StartTurn::Fault(why) => Some(Reply::Refused(Reason::LogFault { member, why })),
    }
}

impl<D: Disk> Working<D> {
    ghost use Rattle.qsg_num.specs.declared.seats.Member.{Member};
    ghost use Rattle.qsg_parts.specs.Owned.{owned};
    ghost use Rattle.qsg_start.specs.Needs.{MayStep, takes_memory};
    ghost use Rattle.qsg_start.specs.Works.{Work as WorkSeen};
    ghost use Rattle.qsg_step.specs.Ends.{answer_at};
    ghost use Rattle.qsg_step.specs.Steps.{start_before, started_as, IsStartStep, IsUnmade};
    ghost use Rattle.qsg_step.specs.declared.step.Step.TheVariants.{Moved};
    ghost use Rattle.qsg_working.specs.Views.{state_of};
    ghost use Rattle.qsg_working.specs.Starts.{started_at};

    /// Makes the next step of the operator's START.
    pub fn start(&mut self, alloc: Global, member: Member) -> Result<Step, AllocError>
        requires may { MayStep (start_before member (state_of self.old)) (owned self.old.parts) }
        requires next { IsSome (next_of actor.Operator self.old.agenda) }
        ensures next { IfOk result (λ step. (d : Directive) → next_of actor.Operator self.old.agenda ≡ Some d → (step ≡ Moved) × IsStartStep member d (state_of self.old) (state_of self.new)) }
        ensures unmade { OnErr result (IsUnmade (state_of self.old) (state_of self.new)) }
        ensures settles { not (takes_memory (start_before member (state_of self.old))) ≡ true → IsOk result }
    {
        let at = self.parts.history.len() as u64;
        let mut work = take_start(alloc, &mut self.starting, member);
        match work.step(alloc, &mut self.parts) {
            Ok(turn) => Ok(self.started(start_reply(member, turn), work, at)),
            Err(_) => {
                self.starting = Some(work);
                Err(AllocError)
            }
        }
    }

    /// What is made of its step. `at` is the length that the history had before it.
    fn started(&mut self, reply: Option<Reply>, work: StartWork, at: u64) -> Step
        requires { IsSome (next_of actor.Operator self.old.agenda) }
        ensures moved { result ≡ Moved }
        ensures started { (d : Directive) → next_of actor.Operator self.old.agenda ≡ Some d → state_of self.new ≡ started_at reply d at work (state_of self.old) }
    {
        match reply {
            None => self.starting = Some(work),
            Some(reply) => {
                self.starting = None;
                self.agenda.answer(Actor::Operator, reply, at);
            }
        }
        Step::Moved
    }
}
