//! COMMIT and BACKOUT of tasks with a unit and without.

ghost use Rattle.std.specs.Prelude.{◌≡◌, length, replicate, IfSome, Some, false, [], ◌∷◌};
ghost use Rattle.qsg_num.specs.declared.seats.StructNo.TheVariants as structure;
ghost use Rattle.qsg_num.specs.declared.seats.Member.TheVariants as member;
ghost use Rattle.qsg_group.specs.Group.{idle};
ghost use Rattle.qsg_manager.specs.Storage.{manager_in};
ghost use Rattle.qsg_logs.specs.Kept.{log_in};
ghost use Rattle.qsg_logs.specs.Writers.{new_writer};

use crate::CommitWork;
use qsg_datasets::DataSets;
use qsg_disk_mem::MemDisk;
use qsg_group::{Claim, Claims, Stage, Task};
use qsg_lists::{Connection, Structure};
use qsg_logs::{Logs, MemberLog};
use qsg_manager::{Manager, Managers, Structures, Tasks};
use qsg_model::{History, Op, Ops};
use qsg_num::{EntryId, Incarnation, Member, StructNo, TaskNo, UnitName};
use qsg_objects::Objects;
use qsg_parts::Parts;
use qsg_repo::Repo;
use qsg_requests::{Reply, Turn};
use std::alloc::Global;
use std::test::*;

const UNIT: UnitName = UnitName {
    member: Member::One,
    incarnation: Incarnation { number: 1 },
    seq: 1,
};

fn structures(alloc: Global) -> Option<Structures>
    ensures { IfSome result (λ s. length s ≡ 1) }
{
    let mut items = Vec::new(alloc);
    items.push(Structure::new(alloc, StructNo::One, 10)).ok()?;
    Some(Structures::from_vec(items))
}

/// One member that is up, whose tasks hold nothing.
fn managers(alloc: Global) -> Option<Managers>
    ensures one { IfSome result (λ m. length m ≡ 1) }
    ensures idle { IfSome result (λ m. (manager_in member.One m).tasks ≡ replicate 5 idle) }
{
    let mut items = Vec::new(alloc);
    let manager = Manager {
        up: true,
        incarnation: Incarnation { number: 1 },
        next: 1,
        tasks: Tasks::new(alloc).ok()?,
    };
    items.push(manager).ok()?;
    Some(Managers::from_vec(items))
}

/// A log of two pages.
fn logs(alloc: Global) -> Option<Logs<MemDisk>>
    ensures one { IfSome result (λ l. length l ≡ 1) }
    ensures writer { IfSome result (λ l. (log_in member.One l).writer ≡ new_writer 2) }
{
    let mut items = Vec::new(alloc);
    items
        .push(MemberLog::new(MemDisk::new(alloc, 8192, Vec::new(alloc)).ok()?, 2))
        .ok()?;
    Some(Logs::from_vec(items))
}

/// A group of one member and one structure.
fn parts(alloc: Global) -> Option<Parts<MemDisk>>
    ensures structures { IfSome result (λ p. length p.structures ≡ 1) }
    ensures managers { IfSome result (λ p. length p.managers ≡ 1) }
    ensures idle { IfSome result (λ p. (manager_in member.One p.managers).tasks ≡ replicate 5 idle) }
    ensures logs { IfSome result (λ p. length p.logs ≡ 1) }
    ensures writer { IfSome result (λ p. (log_in member.One p.logs).writer ≡ new_writer 2) }
{
    Some(Parts {
        structures: structures(alloc)?,
        managers: managers(alloc)?,
        logs: logs(alloc)?,
        datasets: DataSets::from_vec(Vec::new(alloc)),
        repo: Repo::new(alloc, 1, 1, [false; 4], 1).ok()?,
        objects: Objects::new(alloc),
        history: History::new(alloc),
    })
}

/// Whether a turn ended a request where there was nothing to end.
fn is_nothing(turn: &Turn) -> bool {
    matches!(
        turn,
        Turn::Ended(Reply::Unit {
            unit: None,
            count: 0
        })
    )
}

#[test]
fn a_task_without_a_unit_has_nothing_to_end(rt: HostRuntime) {
    let alloc = rt.alloc();
    let Some(mut parts) = parts(alloc) else {
        assert!(rt; false);
        return;
    };
    let mut commit = CommitWork::commit(Member::One, TaskNo::One);
    match commit.step(alloc, &mut parts) {
        Ok(turn) => assert!(rt; is_nothing(&turn)),
        Err(_) => assert!(rt; false),
    }
}

#[test]
fn a_backout_without_a_unit_has_nothing_to_end(rt: HostRuntime) {
    let alloc = rt.alloc();
    let Some(mut parts) = parts(alloc) else {
        assert!(rt; false);
        return;
    };
    let mut backout = CommitWork::backout(Member::One, TaskNo::One);
    match backout.step(alloc, &mut parts) {
        Ok(turn) => assert!(rt; is_nothing(&turn)),
        Err(_) => assert!(rt; false),
    }
}

/// A unit that got an entry which isn't there.
fn unit(alloc: Global) -> Option<Task>
    ensures unit { IfSome result (λ t. t.unit ≡ Some UNIT) }
    ensures one { IfSome result (λ t. length t.ops ≡ 1) }
    ensures claims { IfSome result (λ t. t.claims ≡ record { connection = record { structure = structure.One; epoch = 0 }; id = record { number = 1 }; persistent = false } ∷ []) }
{
    let id = EntryId { number: 1 };
    let mut ops = Vec::new(alloc);
    ops.push((StructNo::One, Op::Got(id))).ok()?;
    let mut claims = Vec::new(alloc);
    claims
        .push(Claim {
            connection: Connection {
                structure: StructNo::One,
                epoch: 0,
            },
            id,
            persistent: false,
        })
        .ok()?;
    Some(Task {
        unit: Some(UNIT),
        ops: Ops::from_vec(ops),
        claims: Claims::from_vec(claims),
        stage: Stage::Open,
    })
}

/// Whether a turn ended a unit of one operation.
fn is_one(turn: &Turn) -> bool {
    match turn {
        Turn::Ended(
            Reply::Unit {
                unit: Some(unit),
                count: 1,
            },
        ) => *unit == UNIT,
        _ => false,
    }
}

#[test]
fn a_backout_of_one_operation_is_one_step(rt: HostRuntime) {
    let alloc = rt.alloc();
    let (Some(mut parts), Some(task)) = (parts(alloc), unit(alloc)) else {
        assert!(rt; false);
        return;
    };
    parts.managers.replace_task(Member::One, TaskNo::One, task);
    let mut backout = CommitWork::backout(Member::One, TaskNo::One);
    match backout.step(alloc, &mut parts) {
        Ok(turn) => assert!(rt; is_one(&turn)),
        Err(_) => assert!(rt; false),
    }
    assert!(rt; parts.managers.name(Member::One, TaskNo::One).is_none());
}
