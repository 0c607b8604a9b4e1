//! Works in hand, and requests that end at their first step.

ghost use Rattle.std.specs.Prelude.{◌≡◌, length, replicate, IfSome};
ghost use Rattle.qsg_num.specs.declared.seats.Member.TheVariants as member;
ghost use Rattle.qsg_group.specs.Group.{idle};
ghost use Rattle.qsg_manager.specs.Storage.{manager_in};
ghost use Rattle.qsg_logs.specs.Kept.{log_in};
ghost use Rattle.qsg_logs.specs.Writers.{new_writer};

use crate::{Work, Works};
use qsg_datasets::DataSets;
use qsg_disk_mem::MemDisk;
use qsg_lists::Selector;
use qsg_logs::{Logs, MemberLog};
use qsg_manager::{Manager, Managers, Structures, Tasks};
use qsg_model::History;
use qsg_num::{Incarnation, Member, Name, QueueName, TaskNo};
use qsg_objects::Objects;
use qsg_parts::Parts;
use qsg_repo::Repo;
use qsg_requests::{Reply, Request, Turn};
use std::alloc::Global;
use std::test::*;

/// One member that is up, whose tasks hold nothing.
fn managers(alloc: Global) -> Option<Managers>
    ensures one { IfSome result (λ m. length m ≡ 1) }
    ensures idle { IfSome result (λ m. (manager_in member.One m).tasks ≡ replicate 5 idle) }
{
    let mut items = Vec::new(alloc);
    let manager = Manager {
        up: true,
        incarnation: Incarnation { number: 1 },
        next: 1,
        tasks: Tasks::new(alloc).ok()?,
    };
    items.push(manager).ok()?;
    Some(Managers::from_vec(items))
}

/// A log of two pages.
fn logs(alloc: Global) -> Option<Logs<MemDisk>>
    ensures one { IfSome result (λ l. length l ≡ 1) }
    ensures writer { IfSome result (λ l. (log_in member.One l).writer ≡ new_writer 2) }
{
    let mut items = Vec::new(alloc);
    items
        .push(MemberLog::new(MemDisk::new(alloc, 8192, Vec::new(alloc)).ok()?, 2))
        .ok()?;
    Some(Logs::from_vec(items))
}

/// A group of one member, without structures.
fn parts(alloc: Global) -> Option<Parts<MemDisk>>
    ensures managers { IfSome result (λ p. length p.managers ≡ 1) }
    ensures idle { IfSome result (λ p. (manager_in member.One p.managers).tasks ≡ replicate 5 idle) }
    ensures logs { IfSome result (λ p. length p.logs ≡ 1) }
    ensures writer { IfSome result (λ p. (log_in member.One p.logs).writer ≡ new_writer 2) }
{
    Some(Parts {
        structures: Structures::from_vec(Vec::new(alloc)),
        managers: managers(alloc)?,
        logs: logs(alloc)?,
        datasets: DataSets::from_vec(Vec::new(alloc)),
        repo: Repo::new(alloc, 1, 1, [false; 4], 1).ok()?,
        objects: Objects::new(alloc),
        history: History::new(alloc),
    })
}

/// Whether a turn ended a request where there was nothing to end.
fn is_nothing(turn: &Turn) -> bool {
    matches!(
        turn,
        Turn::Ended(Reply::Unit {
            unit: None,
            count: 0
        })
    )
}

#[test]
fn a_commit_of_nothing_ends_at_once(rt: HostRuntime) {
    let alloc = rt.alloc();
    let Some(mut parts) = parts(alloc) else {
        assert!(rt; false);
        return;
    };
    let mut work = Work::begin(Member::One, TaskNo::One, Request::Commit);
    match work.step(alloc, &mut parts) {
        Ok(turn) => assert!(rt; is_nothing(&turn)),
        Err(_) => assert!(rt; false),
    }
}

/// A get of any message of a queue.
fn get(alloc: Global) -> Result<Request, Fail> {
    Ok(Request::Get {
        queue: QueueName::from_name(Name::from_str(alloc, "Q1")?)?,
        select: Selector {
            msg_id: None,
            correl_id: None,
        },
    })
}

#[test]
fn a_work_is_taken_once(rt: HostRuntime) -> Result<(), Fail> {
    let alloc = rt.alloc();
    let mut works = Works::new(alloc)?;
    assert!(rt; works.take(Member::Eight, TaskNo::Four).is_none());
    let work = Work::begin(Member::Two, TaskNo::One, get(alloc)?);
    works.put(Member::Two, TaskNo::One, work);
    assert!(rt; !works.is_busy(Member::One, TaskNo::One));
    assert!(rt; works.is_busy(Member::Two, TaskNo::One));
    assert!(rt; matches!(works.take(Member::Two, TaskNo::One), Some(Work::Get(_))));
    assert!(rt; works.take(Member::Two, TaskNo::One).is_none());
    Ok(())
}
