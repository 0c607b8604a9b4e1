//! The work that a task has in hand.

ghost use Rattle.std.specs.Prelude.{◌≡◌, true, OnErr, IfOk, Some, None, is_some};
ghost use Rattle.std.specs.List.{AllByRecursion};
ghost use Rattle.qsg_num.specs.declared.ids.Actor.TheVariants as actor;
ghost use Rattle.qsg_objects.specs.declared.directives.Directive.{Directive};
ghost use Rattle.qsg_agenda.specs.Courses.{next_of};
ghost use Rattle.qsg_works.specs.InHand.{work_of, with_work};
ghost use Rattle.qsg_step.specs.States.{IsCourseRight};
ghost use Rattle.qsg_working.specs.Hands.{IsGiven, returned};

use qsg_agenda::Agenda;
use qsg_directives::request_of;
use qsg_num::{Actor, Member, TaskNo};
use qsg_works::{Work, Works};
use std::alloc::{AllocError, Global};

/// The work of a task's next directive: the one that the task has in hand, which is taken out of it, or else a new one.
/// Whether it was in hand is told besides.
pub fn work_of(
    alloc: Global,
    agenda: &Agenda,
    works: &mut Works,
    member: Member,
    task: TaskNo,
) -> Result<Option<(Work, bool)>, AllocError>
    requires right { AllByRecursion IsCourseRight agenda.now }
    ensures given { IfOk result (λ given. (d : Directive) → next_of (actor.Task member task) agenda.now ≡ Some d → IsGiven member task d works.old given) }
    ensures taken { IfOk result (λ given. works.new ≡ with_work member task None works.old) }
    ensures unchanged { OnErr result (works.new ≡ works.old) }
    ensures first { OnErr result (work_of member task works.old ≡ None) }
{
    if let Some(work) = works.take(member, task) {
        return Ok(Some((work, true)));
    }
    let Some(directive) = agenda.next(Actor::Task(member, task)) else {
        return Ok(None);
    };
    let Some(request) = request_of(alloc, directive)? else {
        return Ok(None);
    };
    Ok(Some((Work::begin(member, task, request), false)))
}

/// Puts a work that made no step back into the hand of its task, if it was there.
pub fn give_back(works: &mut Works, member: Member, task: TaskNo, work: Work, in_hand: bool)
    ensures { works.new ≡ returned in_hand member task work works.old }
{
    if in_hand {
        works.put(member, task, work);
    }
}
