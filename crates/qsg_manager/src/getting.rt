//! The step that marks the entry that is to be delivered next and adds the operation to the unit.

ghost use Rattle.std.specs.Prelude.{◌≡◌, ◌≤◌, ◌<◌, [], ◌∷◌, ◌++◌, IfOk, IfErr, OnOk, OnErr, None, Some, option_map, length, vec_len, vec_capacity};
ghost use Rattle.qsg_num.specs.Seats.{member_number, structure_number};
ghost use Rattle.qsg_model.specs.declared.history.Op.TheVariants as op;
ghost use Rattle.qsg_lists.specs.Structures.{lost_of};
ghost use Rattle.qsg_manager.specs.Facilities.{structure_in};
ghost use Rattle.qsg_manager.specs.Getting.{found_in, with_taken, with_get, with_found, taken_of, ops_with, claims_with, IsNotGot};
ghost use Rattle.qsg_manager.specs.Storage.{task_at};

use crate::managers::{Managers, idle_task};
use crate::structures::Structures;
use crate::taken::{GetRefused, Room, Taken};
use crate::writing::push_reserved;
use qsg_group::{Claim, Claims, Task};
use qsg_lists::{Connection, Selector};
use qsg_model::{Op, Ops};
use qsg_num::{Delivery, QueueName, StructNo, TaskNo, UnitName};
use std::alloc::Global;
use std::mem;

/// Marks the entry of a queue that is to be delivered next as got by the unit of a task, adds the operation to the
/// unit, and gives a copy of the entry; None exactly where there is none. Room for the longest body is made before,
/// so that no memory is taken after. A refusal changes nothing.
pub fn get_entry(
    alloc: Global,
    structures: &mut Structures,
    managers: &mut Managers,
    unit: UnitName,
    task: TaskNo,
    connection: Connection,
    queue: &QueueName,
    order: Delivery,
    select: &Selector,
) -> Result<Option<Taken>, GetRefused>
    requires member { member_number unit.member ≤ length managers.old }
    requires structure { structure_number connection.structure ≤ length structures.old }
    ensures served { OnOk result (lost_of (structure_in connection.structure structures.old) connection ≡ None) }
    ensures answer { IfOk result (λ taken. taken ≡ option_map taken_of (found_in connection queue.now order select.now structures.old)) }
    ensures marked { OnOk result (structures.new ≡ with_taken unit connection (found_in connection queue.now order select.now structures.old) structures.old) }
    ensures added { OnOk result (managers.new ≡ with_found unit.member task connection (found_in connection queue.now order select.now structures.old) managers.old) }
    ensures refused { IfErr result (λ why. IsNotGot why (lost_of (structure_in connection.structure structures.old) connection)) }
    ensures structures_stay { OnErr result (structures.new ≡ structures.old) }
    ensures managers_stay { OnErr result (managers.new ≡ managers.old) }
{
    let mut held = managers.replace_task(unit.member, task, idle_task(alloc));
    let result = take_entry(
        alloc, structures, &mut held, connection, unit, queue, order, select,
    );
    managers.replace_task(unit.member, task, held);
    result
}

/// The same on a task.
fn take_entry(
    alloc: Global,
    structures: &mut Structures,
    task: &mut Task,
    connection: Connection,
    unit: UnitName,
    queue: &QueueName,
    order: Delivery,
    select: &Selector,
) -> Result<Option<Taken>, GetRefused>
    requires within { structure_number connection.structure ≤ length structures.old }
    ensures served { OnOk result (lost_of (structure_in connection.structure structures.old) connection ≡ None) }
    ensures answer { IfOk result (λ taken. taken ≡ option_map taken_of (found_in connection queue.now order select.now structures.old)) }
    ensures marked { OnOk result (structures.new ≡ with_taken unit connection (found_in connection queue.now order select.now structures.old) structures.old) }
    ensures added { OnOk result (task.new ≡ with_get connection (found_in connection queue.now order select.now structures.old) task.old) }
    ensures refused { IfErr result (λ why. IsNotGot why (lost_of (structure_in connection.structure structures.old) connection)) }
    ensures structures_stay { OnErr result (structures.new ≡ structures.old) }
    ensures task_stays { OnErr result (task.new ≡ task.old) }
{
    let Ok(room) = Room::new(alloc, queue) else {
        return Err(GetRefused::NoMemory);
    };
    let Task {
        unit: name,
        ops,
        claims,
        stage,
    } = mem::replace(task, idle_task(alloc));
    let mut ops = ops.into_vec();
    let mut claims = claims.into_vec();
    let result = take_with(
        structures,
        &mut ops,
        &mut claims,
        connection,
        unit,
        room,
        order,
        select,
    );
    *task = Task {
        unit: name,
        ops: Ops::from_vec(ops),
        claims: Claims::from_vec(claims),
        stage,
    };
    result
}

/// The same on the lists of a unit's operations and claims.
fn take_with(
    structures: &mut Structures,
    ops: &mut Vec<(StructNo, Op)>,
    claims: &mut Vec<Claim>,
    connection: Connection,
    unit: UnitName,
    room: Room,
    order: Delivery,
    select: &Selector,
) -> Result<Option<Taken>, GetRefused>
    requires within { structure_number connection.structure ≤ length structures.old }
    ensures served { OnOk result (lost_of (structure_in connection.structure structures.old) connection ≡ None) }
    ensures answer { IfOk result (λ taken. taken ≡ option_map taken_of (found_in connection room order select.now structures.old)) }
    ensures marked { OnOk result (structures.new ≡ with_taken unit connection (found_in connection room order select.now structures.old) structures.old) }
    ensures ops { OnOk result (ops.new.items ≡ ops_with connection (found_in connection room order select.now structures.old) ops.old.items) }
    ensures claims { OnOk result (claims.new.items ≡ claims_with connection (found_in connection room order select.now structures.old) claims.old.items) }
    ensures refused { IfErr result (λ why. IsNotGot why (lost_of (structure_in connection.structure structures.old) connection)) }
    ensures structures_stay { OnErr result (structures.new ≡ structures.old) }
    ensures ops_stay { OnErr result (ops.new.items ≡ ops.old.items) }
    ensures claims_stay { OnErr result (claims.new.items ≡ claims.old.items) }
{
    if ops.reserve(1).is_err() || claims.reserve(1).is_err() {
        return Err(GetRefused::NoMemory);
    }
    let taken = match structures.take(connection, unit, room, order, select) {
        Ok(taken) => taken,
        Err(lost) => return Err(GetRefused::Lost(lost)),
    };
    if let Some(entry) = &taken {
        add_got(ops, claims, connection, entry);
    }
    Ok(taken)
}

/// Adds the operation that got an entry, for which there is room.
fn add_got(
    ops: &mut Vec<(StructNo, Op)>,
    claims: &mut Vec<Claim>,
    connection: Connection,
    entry: &Taken,
)
    requires ops_room { vec_len ops.old < vec_capacity ops.old }
    requires claims_room { vec_len claims.old < vec_capacity claims.old }
    ensures ops { ops.new.items ≡ ops.old.items ++ (connection.structure, op.Got entry.now.id) ∷ [] }
    ensures claims { claims.new.items ≡ claims.old.items ++ record { connection = connection; id = entry.now.id; persistent = entry.now.head.persistent } ∷ [] }
{
    push_reserved(ops, (connection.structure, Op::Got(entry.id)));
    push_reserved(
        claims,
        Claim {
            connection,
            id: entry.id,
            persistent: entry.head.persistent,
        },
    );
}
