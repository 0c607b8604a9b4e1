//! The step that writes the entry and adds the operation to the unit.

ghost use Rattle.std.specs.Prelude.{◌≡◌, ◌≤◌, ◌<◌, ◌+◌, ◌^◌, ℕ, List, [], ◌∷◌, ◌++◌, IfOk, IfErr, OnOk, OnErr, None, length, vec_len, vec_capacity};
ghost use Rattle.qsg_num.specs.Seats.{structure_number};
ghost use Rattle.qsg_lists.specs.Writing.{write_refusal, next_id, written};
ghost use Rattle.qsg_manager.specs.Facilities.{structure_in, with_structure};
ghost use Rattle.qsg_model.specs.declared.history.Op.TheVariants as op;
ghost use Rattle.qsg_manager.specs.Putting.{with_put, with_id, claim, IsRefused};

use crate::managers::idle_task;
use crate::structures::Structures;
use qsg_group::{Claim, Claims, Task};
use qsg_lists::{Connection, Head, Place, WriteRefused, WriteWhy};
use qsg_model::{Op, Ops};
use qsg_msg::Message;
use qsg_num::{EntryId, StructNo, UnitName};
use std::alloc::Global;
use std::mem;

/// What a put writes.
#[derive(Debug, Drop)]
pub struct NewEntry {
    pub head: Head,
    pub place: Place,
    /// The message of the unit's operation; its id is set when the entry has one.
    pub message: Message,
    /// The most messages of its queue.
    pub max_depth: u32,
}

/// Why no entry was written, and what was to be.
#[derive(Debug, Drop)]
pub struct PutRefused {
    pub why: WriteWhy,
    pub entry: NewEntry,
}

/// Adds an element for which there is room.
pub fn push_reserved<T: Drop>(items: &mut Vec<T>, item: T)
    requires { vec_len items.old < vec_capacity items.old }
    ensures { items.new.items ≡ items.old.items ++ item ∷ [] }
{
    let pushed = items.push(item).is_ok();
    prove!(pushed);
}

/// Writes the entry of a put, and adds the operation to its unit. A refusal changes nothing.
pub fn write_entry(
    alloc: Global,
    structures: &mut Structures,
    task: &mut Task,
    connection: Connection,
    unit: UnitName,
    entry: NewEntry,
) -> Result<EntryId, PutRefused>
    requires within { structure_number connection.structure ≤ length structures.old }
    requires fits { (structure_in connection.structure structures.old).last + 1 < 2 ^ 40 }
    ensures passed { OnOk result (write_refusal (structure_in connection.structure structures.old) connection entry.head entry.place entry.max_depth ≡ None) }
    ensures id { IfOk result (λ id. id ≡ next_id (structure_in connection.structure structures.old)) }
    ensures written { OnOk result (structures.new ≡ with_structure connection.structure (written (structure_in connection.structure structures.old) unit entry.head entry.place) structures.old) }
    ensures added { OnOk result (task.new ≡ with_put connection entry.message (next_id (structure_in connection.structure structures.old)) task.old) }
    ensures refused { IfErr result (λ e. IsRefused e.why (write_refusal (structure_in connection.structure structures.old) connection entry.head entry.place entry.max_depth)) }
    ensures back { IfErr result (λ e. e.entry ≡ entry) }
    ensures structures_stay { OnErr result (structures.new ≡ structures.old) }
    ensures task_stays { OnErr result (task.new ≡ task.old) }
{
    let Task {
        unit: name,
        ops,
        claims,
        stage,
    } = mem::replace(task, idle_task(alloc));
    let mut ops = ops.into_vec();
    let mut claims = claims.into_vec();
    let result = write_with(structures, &mut ops, &mut claims, connection, unit, entry);
    *task = Task {
        unit: name,
        ops: Ops::from_vec(ops),
        claims: Claims::from_vec(claims),
        stage,
    };
    result
}

/// The same on the lists of a unit's operations and claims.
fn write_with(
    structures: &mut Structures,
    ops: &mut Vec<(StructNo, Op)>,
    claims: &mut Vec<Claim>,
    connection: Connection,
    unit: UnitName,
    entry: NewEntry,
) -> Result<EntryId, PutRefused>
    requires within { structure_number connection.structure ≤ length structures.old }
    requires fits { (structure_in connection.structure structures.old).last + 1 < 2 ^ 40 }
    ensures passed { OnOk result (write_refusal (structure_in connection.structure structures.old) connection entry.head entry.place entry.max_depth ≡ None) }
    ensures id { IfOk result (λ id. id ≡ next_id (structure_in connection.structure structures.old)) }
    ensures written { OnOk result (structures.new ≡ with_structure connection.structure (written (structure_in connection.structure structures.old) unit entry.head entry.place) structures.old) }
    ensures ops { OnOk result (ops.new.items ≡ ops.old.items ++ (connection.structure, op.Put (with_id (next_id (structure_in connection.structure structures.old)) entry.message)) ∷ []) }
    ensures claims { OnOk result (claims.new.items ≡ claims.old.items ++ claim connection entry.message (next_id (structure_in connection.structure structures.old)) ∷ []) }
    ensures refused { IfErr result (λ e. IsRefused e.why (write_refusal (structure_in connection.structure structures.old) connection entry.head entry.place entry.max_depth)) }
    ensures back { IfErr result (λ e. e.entry ≡ entry) }
    ensures structures_stay { OnErr result (structures.new ≡ structures.old) }
    ensures ops_stay { OnErr result (ops.new.items ≡ ops.old.items) }
    ensures claims_stay { OnErr result (claims.new.items ≡ claims.old.items) }
{
    if ops.reserve(1).is_err() || claims.reserve(1).is_err() {
        return Err(PutRefused {
            why: WriteWhy::NoMemory,
            entry,
        });
    }
    write_reserved(structures, ops, claims, connection, unit, entry)
}

/// The same, where there is room for the operation.
fn write_reserved(
    structures: &mut Structures,
    ops: &mut Vec<(StructNo, Op)>,
    claims: &mut Vec<Claim>,
    connection: Connection,
    unit: UnitName,
    entry: NewEntry,
) -> Result<EntryId, PutRefused>
    requires within { structure_number connection.structure ≤ length structures.old }
    requires fits { (structure_in connection.structure structures.old).last + 1 < 2 ^ 40 }
    requires ops_room { vec_len ops.old < vec_capacity ops.old }
    requires claims_room { vec_len claims.old < vec_capacity claims.old }
    ensures passed { OnOk result (write_refusal (structure_in connection.structure structures.old) connection entry.head entry.place entry.max_depth ≡ None) }
    ensures id { IfOk result (λ id. id ≡ next_id (structure_in connection.structure structures.old)) }
    ensures written { OnOk result (structures.new ≡ with_structure connection.structure (written (structure_in connection.structure structures.old) unit entry.head entry.place) structures.old) }
    ensures ops { OnOk result (ops.new.items ≡ ops.old.items ++ (connection.structure, op.Put (with_id (next_id (structure_in connection.structure structures.old)) entry.message)) ∷ []) }
    ensures claims { OnOk result (claims.new.items ≡ claims.old.items ++ claim connection entry.message (next_id (structure_in connection.structure structures.old)) ∷ []) }
    ensures refused { IfErr result (λ e. IsRefused e.why (write_refusal (structure_in connection.structure structures.old) connection entry.head entry.place entry.max_depth)) }
    ensures back { IfErr result (λ e. e.entry ≡ entry) }
    ensures structures_stay { OnErr result (structures.new ≡ structures.old) }
    ensures ops_stay { OnErr result (ops.new.items ≡ ops.old.items) }
    ensures claims_stay { OnErr result (claims.new.items ≡ claims.old.items) }
{
    let NewEntry {
        head,
        place,
        mut message,
        max_depth,
    } = entry;
    match structures.write_entry(connection, unit, head, place, max_depth) {
        Ok(id) => {
            let persistent = message.persistent;
            message.id = id;
            push_reserved(ops, (connection.structure, Op::Put(message)));
            push_reserved(
                claims,
                Claim {
                    connection,
                    id,
                    persistent,
                },
            );
            Ok(id)
        }
        Err(WriteRefused { why, head, place }) => Err(PutRefused {
            why,
            entry: NewEntry {
                head,
                place,
                message,
                max_depth,
            },
        }),
    }
}
