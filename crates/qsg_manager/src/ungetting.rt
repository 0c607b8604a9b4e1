//! The actions that undo the last operation of a unit, a get, and the one that forgets a removed entry.

ghost use Rattle.std.specs.Prelude.{◌≡◌, ◌≤◌, false, OnErr, length};
ghost use Rattle.qsg_num.specs.Seats.{member_number, structure_number};
ghost use Rattle.qsg_lists.specs.Settling.{settle_answer, settled_entry, forget_answer, deleted, revised_if_done};
ghost use Rattle.qsg_manager.specs.Facilities.{structure_in, with_structure};
ghost use Rattle.qsg_manager.specs.Storage.{task_at};
ghost use Rattle.qsg_manager.specs.Units.{without_last, with_dropped};

use crate::managers::{Managers, idle_task};
use crate::structures::Structures;
use qsg_group::{Claims, Task};
use qsg_lists::{Connection, Lost, Settled};
use qsg_model::Ops;
use qsg_num::{EntryId, Member, TaskNo, UnitName};
use std::alloc::Global;

/// Undoes the last operation of an open unit, the get of this entry: the unit's mark comes off the entry, which any get
/// may have then, and the operation leaves the unit with its claim, whatever the answer is. Where the connection isn't
/// served any more, or the entry isn't the unit's, the structures stay as they are. Takes no memory.
pub fn unget_entry(
    alloc: Global,
    structures: &mut Structures,
    managers: &mut Managers,
    unit: UnitName,
    task: TaskNo,
    connection: Connection,
    id: EntryId,
) -> Result<Settled, Lost>
    requires member { member_number unit.member ≤ length managers.old }
    requires structure { structure_number connection.structure ≤ length structures.old }
    ensures answer { result ≡ settle_answer (structure_in connection.structure structures.old) connection id unit }
    ensures settled { structures.new ≡ with_structure connection.structure (revised_if_done result id (settled_entry false) (structure_in connection.structure structures.old)) structures.old }
    ensures structures_stay { OnErr result (structures.new ≡ structures.old) }
    ensures dropped { managers.new ≡ with_dropped unit.member task managers.old }
{
    drop_last(alloc, managers, unit.member, task);
    structures.settle(connection, id, unit, false)
}

/// Takes the last operation of a task's unit off it, with its claim, and leaves the entry: for a get whose entry is lost
/// with its structure. Takes no memory.
pub fn drop_last(alloc: Global, managers: &mut Managers, member: Member, task: TaskNo)
    requires within { member_number member ≤ length managers.old }
    ensures dropped { managers.new ≡ with_dropped member task managers.old }
{
    let held = managers.replace_task(member, task, idle_task(alloc));
    managers.replace_task(member, task, without_last(held));
}

/// A task without its unit's last operation.
fn without_last(task: Task) -> Task
    ensures { result ≡ without_last task }
{
    let Task {
        unit,
        ops,
        claims,
        stage,
    } = task;
    let mut ops = ops.into_vec();
    let mut claims = claims.into_vec();
    ops.pop();
    claims.pop();
    Task {
        unit,
        ops: Ops::from_vec(ops),
        claims: Claims::from_vec(claims),
        stage,
    }
}

/// Deletes an entry that was removed, once its blocks are to be freed. Done exactly where its mark is Cleanup.
pub fn forget_entry(
    structures: &mut Structures,
    connection: Connection,
    id: EntryId,
) -> Result<Settled, Lost>
    requires within { structure_number connection.structure ≤ length structures.old }
    ensures answer { result ≡ forget_answer (structure_in connection.structure structures.old) connection id }
    ensures forgotten { structures.new ≡ with_structure connection.structure (revised_if_done result id deleted (structure_in connection.structure structures.old)) structures.old }
{
    structures.forget(connection, id)
}
