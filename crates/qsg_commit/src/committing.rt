//! The steps of a COMMIT up to where its unit is in the history.

ghost use Rattle.std.specs.Prelude.{◌≡◌, ◌<◌, ◌≤◌, ◌+◌, ◌^◌, IfOk, OnErr, OnOk, IfSome, IsSome, None, Some, length};
ghost use Rattle.qsg_num.specs.Seats.{member_number};
ghost use Rattle.qsg_parts.specs.Owned.{owned, HasMember};
ghost use Rattle.qsg_manager.specs.Storage.{task_at};
ghost use Rattle.qsg_logs.specs.Kept.{log_in};
ghost use Rattle.qsg_commit.specs.Committing.{take_answer, IsTaken, IsSameButRoom, IsPageStep, IsFailedPage};
ghost use Rattle.qsg_commit.specs.Needs.{MayLatch, MayWritePage};

use crate::phases::Taken;
use qsg_disk::{Disk, Failed};
use qsg_manager::{begin_unit, harden_unit, latch};
use qsg_num::{MEMBERS, Member, TaskNo, UnitName};
use qsg_parts::Parts;
use qsg_unitlog::{cut_unit, structures_of};
use std::alloc::{AllocError, Global};

/// Takes the latch of the member's log for the unit of a task, and its run in hand. The history has a slot then for the
/// unit of each member.
pub fn take_latch<D: Disk>(
    alloc: Global,
    parts: &mut Parts<D>,
    member: Member,
    task: TaskNo,
) -> Result<Taken, AllocError>
    requires may { MayLatch member task (owned parts.old) }
    ensures answer { IfOk result (λ taken. taken ≡ take_answer member task (owned parts.old)) }
    ensures taken { IfOk result (λ taken. IsTaken member task taken (owned parts.old) (owned parts.new)) }
    ensures no_memory { OnErr result (IsSameButRoom (owned parts.old) (owned parts.new)) }
{
    let held = parts.managers.task(member, task);
    let ops = held.ops.as_slice();
    let (Some(unit), Some(structures)) = (held.unit, structures_of(ops)) else {
        return Ok(Taken::Nothing);
    };
    if let Some(busy) = latch(&parts.managers, member) {
        return Ok(Taken::Busy(busy));
    }
    let count = ops.len() as u32;
    let run = cut_unit(alloc, unit, ops, held.claims.as_slice(), structures)?;
    parts.history.reserve(usize::from(MEMBERS))?;
    let first = parts.logs.next_page(member);
    begin_unit(&mut parts.managers, member, task, first);
    parts.logs.begin(member, unit, run);
    Ok(Taken::Begun { unit, count })
}

/// Makes the next step of the page in hand of a unit's run. The step that makes its last page safe adds the unit to the
/// history. Whether it did. Takes no memory.
pub fn write_page<D: Disk>(
    alloc: Global,
    parts: &mut Parts<D>,
    unit: UnitName,
    task: TaskNo,
) -> Result<bool, Failed>
    requires may { MayWritePage unit (owned parts.old) }
    ensures done { IfOk result (λ done. IsPageStep unit task done (owned parts.old) (owned parts.new)) }
    ensures failed { OnErr result (IsFailedPage unit.member (owned parts.old) (owned parts.new)) }
{
    parts.logs.next_step(unit.member)?;
    if parts.logs.in_hand(unit.member).is_some() {
        return Ok(false);
    }
    harden_unit(alloc, &mut parts.managers, &mut parts.history, unit, task);
    Ok(true)
}
