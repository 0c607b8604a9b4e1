//! How the unit of a task begins, is decided, and ends.

ghost use Rattle.std.specs.Prelude.{◌≡◌, ◌≤◌, ◌<◌, ◌+◌, ◌^◌, [], ◌∷◌, ◌++◌, Some, length};
ghost use Rattle.qsg_num.specs.Seats.{member_number, structure_number};
ghost use Rattle.qsg_model.specs.declared.history.Item.TheVariants as item;
ghost use Rattle.qsg_lists.specs.Settling.{settle_answer, settled_entry, revised_if_done};
ghost use Rattle.qsg_group.specs.declared.tasks.Stage.TheVariants as stage;
ghost use Rattle.qsg_manager.specs.Facilities.{structure_in, with_structure};
ghost use Rattle.qsg_manager.specs.Settles.{next_claim, commits, further};
ghost use Rattle.qsg_manager.specs.Storage.{manager_in, task_at, next_name};
ghost use Rattle.qsg_manager.specs.Units.{with_name, with_stage, with_hardened, with_backed_out, with_idle, safe_stage, decided};

use crate::managers::{Managers, idle_task};
use crate::settling::{commits, further};
use crate::structures::Structures;
use qsg_group::{Claim, Claims, Stage, Task};
use qsg_lists::{Lost, Settled};
use qsg_model::{History, Item, Ops};
use qsg_num::{Member, PageNo, TaskNo, UnitName};
use std::alloc::Global;
use std::mem;

/// Draws the next name of a member for a task, which holds an open unit without operations then. Takes no memory.
pub fn draw_name(alloc: Global, managers: &mut Managers, member: Member, task: TaskNo) -> UnitName
    requires within { member_number member ≤ length managers.old }
    requires left { (manager_in member managers.old).next + 1 < 2 ^ 32 }
    ensures name { result ≡ next_name member managers.old }
    ensures drawn { managers.new ≡ with_name member task managers.old }
{
    let unit = managers.draw(member);
    let mut open = idle_task(alloc);
    open.unit = Some(unit);
    managers.replace_task(member, task, open);
    unit
}

/// Begins to write the run of a task's unit, at a page of the member's log.
pub fn begin_unit(managers: &mut Managers, member: Member, task: TaskNo, first: PageNo)
    requires within { member_number member ≤ length managers.old }
    ensures begun { managers.new ≡ with_stage member task (stage.Hardening first) managers.old }
{
    managers.set_stage(member, task, Stage::Hardening(first));
}

/// The stage of a unit once its run is safe.
fn safe_stage(stage: Stage) -> Stage
    ensures { result ≡ safe_stage stage }
{
    match stage {
        Stage::Hardening(first) => Stage::Committed { first, settled: 0 },
        Stage::Open | Stage::Committed { .. } | Stage::BackedOut { .. } => stage,
    }
}

/// Takes the operations out of a task whose unit is decided.
fn decide(alloc: Global, task: &mut Task, stage: Stage) -> Ops
    ensures ops { result ≡ task.old.ops }
    ensures decided { task.new ≡ decided stage task.old }
{
    task.stage = stage;
    mem::replace(&mut task.ops, Ops::from_vec(Vec::new(alloc)))
}

/// Commits the unit of a task, once its run is safe: the unit stands in the history, in room that was reserved, and
/// its marks are left to settle. Takes no memory.
pub fn harden_unit(
    alloc: Global,
    managers: &mut Managers,
    history: &mut History,
    unit: UnitName,
    task: TaskNo,
)
    requires within { member_number unit.member ≤ length managers.old }
    requires room { 0 < history.old.room }
    ensures told { history.new.items ≡ history.old.items ++ item.Unit unit (task_at unit.member task managers.old).ops ∷ [] }
    ensures room { history.old.room ≤ history.new.room + 1 }
    ensures hardened { managers.new ≡ with_hardened unit.member task managers.old }
{
    let mut held = managers.replace_task(unit.member, task, idle_task(alloc));
    let stage = safe_stage(held.stage);
    let ops = decide(alloc, &mut held, stage);
    managers.replace_task(unit.member, task, held);
    history.push(Item::Unit(unit, ops));
}

/// Gives the unit of a task up: its operations are gone, and its marks are left to settle. Takes no memory.
pub fn back_out_unit(alloc: Global, managers: &mut Managers, member: Member, task: TaskNo)
    requires within { member_number member ≤ length managers.old }
    ensures backed_out { managers.new ≡ with_backed_out member task managers.old }
{
    let mut held = managers.replace_task(member, task, idle_task(alloc));
    decide(alloc, &mut held, Stage::BackedOut { settled: 0 });
    managers.replace_task(member, task, held);
}

/// Settles the next claim of a task's unit, which is committed or backed out. Where its connection isn't served any
/// more, the claim counts as settled. Takes no memory.
pub fn settle_unit(
    structures: &mut Structures,
    managers: &mut Managers,
    unit: UnitName,
    task: TaskNo,
    claim: Claim,
) -> Result<Settled, Lost>
    requires member { member_number unit.member ≤ length managers.old }
    requires next { next_claim (task_at unit.member task managers.old) ≡ Some claim }
    requires structure { structure_number claim.connection.structure ≤ length structures.old }
    ensures answer { result ≡ settle_answer (structure_in claim.connection.structure structures.old) claim.connection claim.id unit }
    ensures settled { structures.new ≡ with_structure claim.connection.structure (revised_if_done result claim.id (settled_entry (commits (task_at unit.member task managers.old).stage)) (structure_in claim.connection.structure structures.old)) structures.old }
    ensures further { managers.new ≡ with_stage unit.member task (further (task_at unit.member task managers.old).stage) managers.old }
{
    let held = managers.task(unit.member, task);
    let stage = held.stage;
    let claims = held.claims.len();
    let result = structures.settle(claim.connection, claim.id, unit, commits(stage));
    managers.set_stage(unit.member, task, further(stage, claims));
    result
}

/// Ends the unit of a task, which holds nothing then. Takes no memory.
pub fn finish_unit(alloc: Global, managers: &mut Managers, member: Member, task: TaskNo)
    requires within { member_number member ≤ length managers.old }
    ensures finished { managers.new ≡ with_idle member task managers.old }
{
    managers.replace_task(member, task, idle_task(alloc));
}
