//! The step of a put, on the unit of a task.

ghost use Rattle.std.specs.Prelude.{◌≡◌, ◌≤◌, ◌<◌, ◌+◌, ◌^◌, IfOk, IfErr, OnOk, OnErr, None, length};
ghost use Rattle.qsg_num.specs.Seats.{member_number, structure_number};
ghost use Rattle.qsg_lists.specs.Writing.{write_refusal, next_id, written};
ghost use Rattle.qsg_manager.specs.Facilities.{structure_in, with_structure};
ghost use Rattle.qsg_manager.specs.Putting.{with_put, IsRefused};
ghost use Rattle.qsg_manager.specs.Storage.{task_at, with_task};

use crate::managers::{Managers, idle_task};
use crate::structures::Structures;
use crate::writing::{NewEntry, PutRefused, write_entry};
use qsg_lists::Connection;
use qsg_num::{EntryId, TaskNo, UnitName};
use std::alloc::Global;

/// Writes the entry of a put, marked by the unit of a task, and adds the operation to the unit. A refusal changes
/// nothing.
pub fn put_entry(
    alloc: Global,
    structures: &mut Structures,
    managers: &mut Managers,
    unit: UnitName,
    task: TaskNo,
    connection: Connection,
    entry: NewEntry,
) -> Result<EntryId, PutRefused>
    requires member { member_number unit.member ≤ length managers.old }
    requires structure { structure_number connection.structure ≤ length structures.old }
    requires fits { (structure_in connection.structure structures.old).last + 1 < 2 ^ 40 }
    ensures passed { OnOk result (write_refusal (structure_in connection.structure structures.old) connection entry.head entry.place entry.max_depth ≡ None) }
    ensures id { IfOk result (λ id. id ≡ next_id (structure_in connection.structure structures.old)) }
    ensures written { OnOk result (structures.new ≡ with_structure connection.structure (written (structure_in connection.structure structures.old) unit entry.head entry.place) structures.old) }
    ensures added { OnOk result (managers.new ≡ with_task unit.member task (with_put connection entry.message (next_id (structure_in connection.structure structures.old)) (task_at unit.member task managers.old)) managers.old) }
    ensures refused { IfErr result (λ e. IsRefused e.why (write_refusal (structure_in connection.structure structures.old) connection entry.head entry.place entry.max_depth)) }
    ensures back { IfErr result (λ e. e.entry ≡ entry) }
    ensures structures_stay { OnErr result (structures.new ≡ structures.old) }
    ensures managers_stay { OnErr result (managers.new ≡ managers.old) }
{
    let mut held = managers.replace_task(unit.member, task, idle_task(alloc));
    let result = write_entry(alloc, structures, &mut held, connection, unit, entry);
    managers.replace_task(unit.member, task, held);
    result
}
