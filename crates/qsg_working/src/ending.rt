//! The end of a member, in a crash or where its log fails.

ghost use Rattle.std.specs.Prelude.{◌≡◌, ◌≤◌, ◌<◌, length};
ghost use Rattle.qsg_num.specs.Seats.{member_number};
ghost use Rattle.qsg_manager.specs.Marked.{marks_of};
ghost use Rattle.qsg_parts.specs.Owned.{owned};
ghost use Rattle.qsg_works.specs.InHand.{with_work};
ghost use Rattle.qsg_tallies.specs.Tallies.{new_tally, with_tally};
ghost use Rattle.qsg_step.specs.Ends.{broken_task, broken_off, dropped, loses_unit, due_task, due_after, incarnation_of};

use crate::dues::Dues;
use crate::waiting::has_unit;
use crate::working::Working;
use qsg_agenda::Agenda;
use qsg_crash::crash;
use qsg_disk::Disk;
use qsg_num::{Actor, Member, TaskNo};
use qsg_parts::Parts;
use qsg_requests::{Reason, Reply};
use qsg_tallies::Tallies;
use qsg_works::Works;
use std::alloc::Global;

/// The request that a task has in progress is answered 2009, when the history has `at` items.
fn break_task(agenda: &mut Agenda, works: &Works, member: Member, task: TaskNo, at: u64)
    ensures { agenda.new ≡ broken_task member task works.now at agenda.old }
{
    let actor = Actor::Task(member, task);
    if works.is_busy(member, task) && agenda.next(actor).is_some() {
        agenda.answer(actor, Reply::Refused(Reason::ConnectionBroken), at);
    }
}

/// Those that the tasks of a member have in progress are.
fn break_off(agenda: &mut Agenda, works: &Works, member: Member, at: u64)
    ensures { agenda.new ≡ broken_off member works.now at agenda.old }
{
    break_task(agenda, works, member, TaskNo::One, at);
    break_task(agenda, works, member, TaskNo::Two, at);
    break_task(agenda, works, member, TaskNo::Three, at);
    break_task(agenda, works, member, TaskNo::Four, at);
}

/// No task of a member has a work in hand.
fn drop_works(works: &mut Works, member: Member)
    ensures { works.new ≡ dropped member works.old }
{
    let _ = works.take(member, TaskNo::One);
    let _ = works.take(member, TaskNo::Two);
    let _ = works.take(member, TaskNo::Three);
    let _ = works.take(member, TaskNo::Four);
}

/// Whether a task without a request in progress has a unit with an operation.
fn loses_unit<D: Disk>(works: &Works, parts: &Parts<D>, member: Member, task: TaskNo) -> bool
    requires { member_number member ≤ length parts.now.managers }
    ensures { result ≡ loses_unit member task works.now (owned parts.now) }
{
    !works.is_busy(member, task) && has_unit(&parts.managers, member, task)
}

/// Such a task is told of its member's end by its next request.
fn fall_due<D: Disk>(due: &mut Dues, works: &Works, parts: &Parts<D>, member: Member, task: TaskNo)
    requires { member_number member ≤ length parts.now.managers }
    ensures { due.new ≡ due_task member task works.now (owned parts.now) due.old }
{
    if loses_unit(works, parts, member, task) {
        due.set(member, task, true);
    }
}

/// Each such task of a member is.
fn all_fall_due<D: Disk>(due: &mut Dues, works: &Works, parts: &Parts<D>, member: Member)
    requires { member_number member ≤ length parts.now.managers }
    ensures { due.new ≡ due_after member works.now (owned parts.now) due.old }
{
    fall_due(due, works, parts, member, TaskNo::One);
    fall_due(due, works, parts, member, TaskNo::Two);
    fall_due(due, works, parts, member, TaskNo::Three);
    fall_due(due, works, parts, member, TaskNo::Four);
}

/// The marks that name the incarnation in which a member is are counted.
fn tally<D: Disk>(tallies: &mut Tallies, parts: &Parts<D>, member: Member)
    requires member { member_number member ≤ length parts.now.managers }
    requires four { length parts.now.structures ≤ 4 }
    requires room { length tallies.old.rows < tallies.old.limit }
    ensures { tallies.new ≡ with_tally (new_tally member (incarnation_of member (owned parts.now)) (marks_of member (incarnation_of member (owned parts.now)) parts.now.structures)) tallies.old }
{
    let incarnation = parts.managers.manager(member).incarnation;
    let marks = parts.structures.count_marks(member, incarnation);
    tallies.add(member, incarnation, marks);
}

impl<D: Disk> Working<D> {
    ghost use Rattle.qsg_step.specs.Ends.{IsEnd};
    ghost use Rattle.qsg_step.specs.Needs.{MayEnd};
    ghost use Rattle.qsg_working.specs.Views.{state_of};

    /// A member that is up ends: the requests that its tasks have in progress are answered 2009, or are to be, its system
    /// task has given up nothing, the marks of its incarnation are counted, and it crashes. `pick` says what is left of
    /// the bytes of its log that weren't safe. Takes no memory.
    pub fn end(&mut self, alloc: Global, member: Member, pick: u64)
        requires may { MayEnd member (state_of self.old) }
        requires four { length self.old.parts.structures ≤ 4 }
        ensures { IsEnd member (state_of self.old) (state_of self.new) }
    {
        let at = self.parts.history.len() as u64;
        break_off(&mut self.agenda, &self.works, member, at);
        all_fall_due(&mut self.due, &self.works, &self.parts, member);
        drop_works(&mut self.works, member);
        self.peers.end(alloc, member);
        tally(&mut self.tallies, &self.parts, member);
        crash(alloc, &mut self.parts, member, pick);
    }
}
