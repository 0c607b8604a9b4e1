//! The marks that come off, and the end of the unit. No call takes memory.

ghost use Rattle.std.specs.Prelude.{◌≡◌, ◌<◌, ◌≤◌, ◌^◌, length};
ghost use Rattle.qsg_num.specs.Seats.{member_number};
ghost use Rattle.qsg_manager.specs.Storage.{task_at};
ghost use Rattle.qsg_parts.specs.Owned.{owned, HasMember};
ghost use Rattle.qsg_commit.specs.Pending.{pending};
ghost use Rattle.qsg_commit.specs.Ending.{settled, is_settled, low_page, ended, published, undone, given_up};
ghost use Rattle.qsg_commit.specs.Needs.{MaySettle, MayEnd, MayGiveUp};

use qsg_disk::Disk;
use qsg_manager::{Managers, back_out_unit, finish_unit, first_needed, next_claim, settle_unit};
use qsg_num::{Member, PageNo, TaskNo, UnitName};
use qsg_parts::Parts;
use std::alloc::Global;

/// Takes the next mark of a unit off, by the connection by which it was set. Whether none is left.
pub fn settle<D: Disk>(parts: &mut Parts<D>, unit: UnitName, task: TaskNo) -> bool
    requires may { MaySettle unit task (owned parts.old) }
    ensures settled { owned parts.new ≡ settled unit task (owned parts.old) }
    ensures last { result ≡ is_settled unit task (owned parts.new) }
{
    if let Some(claim) = next_claim(parts.managers.task(unit.member, task)) {
        let _ = settle_unit(
            &mut parts.structures,
            &mut parts.managers,
            unit,
            task,
            claim,
        );
    }
    next_claim(parts.managers.task(unit.member, task)).is_none()
}

/// The low page of a member: the first page that one of its units still needs, or else the next page of its log.
fn low_page<D: Disk>(parts: &Parts<D>, member: Member) -> PageNo
    requires { HasMember member (owned parts.now) }
    ensures { result ≡ low_page member (owned parts.now) }
{
    match first_needed(&parts.managers, member) {
        Some(page) => page,
        None => parts.logs.next_page(member),
    }
}

/// Ends a unit that is committed and has no mark left, and tells the member's low page.
pub fn publish<D: Disk>(alloc: Global, parts: &mut Parts<D>, unit: UnitName, task: TaskNo)
    requires may { MayEnd unit (owned parts.old) }
    ensures { owned parts.new ≡ published unit task (owned parts.old) }
{
    end(alloc, parts, unit, task);
    let low = low_page(parts, unit.member);
    parts.repo.publish_low(unit.member, low);
}

/// Ends a unit: its task holds nothing, and nothing of the log is reserved for it.
pub fn end<D: Disk>(alloc: Global, parts: &mut Parts<D>, unit: UnitName, task: TaskNo)
    requires may { MayEnd unit (owned parts.old) }
    ensures { owned parts.new ≡ ended unit task (owned parts.old) }
{
    finish_unit(alloc, &mut parts.managers, unit.member, task);
    parts.logs.end_unit(unit.member, task, unit);
}

/// Takes the next mark of a unit that is given up off. The last one ends the unit. Whether it did.
pub fn undo<D: Disk>(alloc: Global, parts: &mut Parts<D>, unit: UnitName, task: TaskNo) -> bool
    requires mark { MaySettle unit task (owned parts.old) }
    requires end { MayEnd unit (owned parts.old) }
    ensures undone { owned parts.new ≡ undone unit task (owned parts.old) }
    ensures last { result ≡ is_settled unit task (settled unit task (owned parts.old)) }
{
    let last = settle(parts, unit, task);
    if last {
        end(alloc, parts, unit, task);
    }
    last
}

/// The unit of a task that has an operation, and how many it has.
pub fn pending(managers: &Managers, member: Member, task: TaskNo) -> Option<(UnitName, u32)>
    requires within { member_number member ≤ length managers.now }
    requires few { length (task_at member task managers.now).ops < 2 ^ 32 }
    ensures { result ≡ pending (task_at member task managers.now) }
{
    let held = managers.task(member, task);
    let count = held.ops.len() as u32;
    if count == 0 {
        return None;
    }
    Some((held.unit?, count))
}

/// Gives a unit up, and takes its first mark off. Whether that ended it.
pub fn give_up<D: Disk>(alloc: Global, parts: &mut Parts<D>, unit: UnitName, task: TaskNo) -> bool
    requires may { MayGiveUp unit task (owned parts.old) }
    ensures undone { owned parts.new ≡ undone unit task (given_up unit task (owned parts.old)) }
    ensures last { result ≡ is_settled unit task (settled unit task (given_up unit task (owned parts.old))) }
{
    back_out_unit(alloc, &mut parts.managers, unit.member, task);
    undo(alloc, parts, unit, task)
}
