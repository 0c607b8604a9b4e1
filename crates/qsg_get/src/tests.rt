//! The check of a get, at each of its refusals, and gets from a structure in which one message waits.

ghost use Rattle.std.specs.Prelude.{◌≡◌, ◌≤◌, true, IfOk, IfSome, None, length};
ghost use Rattle.qsg_num.specs.declared.seats.Member.TheVariants as member;
ghost use Rattle.qsg_num.specs.declared.seats.StructNo.TheVariants as structure;
ghost use Rattle.qsg_num.specs.declared.seats.TaskNo.TheVariants as task;
ghost use Rattle.qsg_group.specs.Group.{idle};
ghost use Rattle.qsg_manager.specs.Facilities.{structure_in};
ghost use Rattle.qsg_manager.specs.Storage.{manager_in, task_at};
ghost use Rattle.qsg_logs.specs.Kept.{log_in};
ghost use Rattle.qsg_logs.specs.Writers.{new_writer};
ghost use Rattle.qsg_parts.specs.Owned.{owned};
ghost use Rattle.qsg_get.specs.Needs.{MayStep, MayPass};

use crate::{GetWork, Terms, a_get_that_goes_on_may_go_on, check};
use qsg_datasets::DataSets;
use qsg_disk_mem::MemDisk;
use qsg_lists::{Connection, Head, Place, Selector, Structure};
use qsg_logs::{Logs, MemberLog};
use qsg_manager::{Manager, Managers, Structures, Tasks};
use qsg_model::History;
use qsg_num::{
    Bytes, Delivery, Incarnation, InlineBody, Member, Name, Priority, QueueName, Rules, StructNo,
    TaskNo, UnitName,
};
use qsg_objects::{CfstructDef, Definition, Objects, QlocalDef};
use qsg_parts::Parts;
use qsg_repo::Repo;
use qsg_requests::{Reason, Reply, Turn};
use std::alloc::{AllocError, Global};
use std::test::*;

fn structure(alloc: Global) -> Result<Definition, AllocError> {
    Ok(Definition::Cfstruct(CfstructDef {
        name: Name::from_str(alloc, "APP1")?,
        dsgroup: Bytes::from_slice(alloc, b"A.*")?,
        recover: true,
        rules: Rules {
            threshold: [70, 80, 90],
            size_k: [32, 4, 0],
        },
        dsblock: 262_144,
        dsbufs: None,
        dsexpand: None,
        descr: None,
    }))
}

fn name(alloc: Global, text: &str) -> Result<QueueName, Fail> {
    Ok(QueueName::from_name(Name::from_str(alloc, text)?)?)
}

/// A queue, by whether it allows gets.
fn queue(alloc: Global, text: &str, get: bool) -> Result<Definition, Fail> {
    Ok(Definition::Qlocal(QlocalDef {
        name: name(alloc, text)?,
        cfstruct: Name::from_str(alloc, "APP1")?,
        put: true,
        get,
        defprty: Priority::Three,
        defpsist: true,
        msgdlvsq: Delivery::Fifo,
        maxdepth: 2,
        maxmsgl: 100,
        descr: None,
    }))
}

/// Queues Q1, and CLOSED, which allows no gets.
fn objects(alloc: Global) -> Result<Objects, Fail> {
    let mut objects = Objects::new(alloc);
    objects.define(structure(alloc)?)?;
    objects.define(queue(alloc, "Q1", true)?)?;
    objects.define(queue(alloc, "CLOSED", false)?)?;
    Ok(objects)
}

#[test]
fn refusals_of_the_check(rt: HostRuntime) -> Result<(), Fail> {
    let objects = objects(rt.alloc())?;
    assert_eq!(rt; check(&objects, "Q9", 0), Err(Reason::UnknownObject));
    assert_eq!(rt; check(&objects, "CLOSED", 1_000), Err(Reason::GetInhibited));
    assert_eq!(rt; check(&objects, "Q1", 1_000), Err(Reason::SyncpointLimit));
    let terms = Terms {
        structure: StructNo::One,
        order: Delivery::Fifo,
    };
    assert_eq!(rt; check(&objects, "Q1", 999), Ok(terms));
    Ok(())
}

const NOW: Connection = Connection {
    structure: StructNo::One,
    epoch: 0,
};

/// A unit that put a message before.
const BEFORE: UnitName = UnitName {
    member: Member::One,
    incarnation: Incarnation { number: 1 },
    seq: 0,
};

/// A structure in which the message `hello` of queue Q1 waits, with that message id.
fn structures(alloc: Global, msg_id: [u8; 24]) -> Result<Structures, Fail>
    ensures { IfOk result (λ s. length s ≡ 1) }
{
    let mut structure = Structure::new(alloc, StructNo::One, 10);
    let head = Head {
        queue: name(alloc, "Q1")?,
        priority: Priority::Four,
        persistent: true,
        msg_id,
        correl_id: [0; 24],
    };
    let place = Place::Inline(InlineBody::from_slice(alloc, b"hello")?);
    if let Ok(id) = structure.write_entry(NOW, BEFORE, head, place, 1) {
        let _ = structure.settle(NOW, id, BEFORE, true);
    }
    let mut items = Vec::new(alloc);
    items.push(structure)?;
    Ok(Structures::from_vec(items))
}

/// One member that is up.
fn managers(alloc: Global) -> Result<Managers, Fail>
    ensures one { IfOk result (λ m. length m ≡ 1) }
    ensures next { IfOk result (λ m. (manager_in member.One m).next ≡ 1) }
    ensures free { IfOk result (λ m. task_at member.One task.Two m ≡ idle) }
{
    let mut items = Vec::new(alloc);
    items.push(Manager {
        up: true,
        incarnation: Incarnation { number: 1 },
        next: 1,
        tasks: Tasks::new(alloc)?,
    })?;
    Ok(Managers::from_vec(items))
}

/// Its log, of so many pages.
fn logs(alloc: Global) -> Result<Logs<MemDisk>, Fail>
    ensures one { IfOk result (λ l. length l ≡ 1) }
    ensures writer { IfOk result (λ l. (log_in member.One l).writer ≡ new_writer 2) }
{
    let mut items = Vec::new(alloc);
    items.push(MemberLog::new(MemDisk::new(alloc, 8192, Vec::new(alloc))?, 2))?;
    Ok(Logs::from_vec(items))
}

/// Such a group, and a get of queue Q1 by the second task of its member.
fn group(alloc: Global, select: Selector) -> Result<Option<(Parts<MemDisk>, GetWork)>, Fail>
    ensures may { IfOk result (λ found. IfSome found (λ r. MayStep r.1 (owned r.0))) }
    ensures pass { IfOk result (λ found. IfSome found (λ r. MayPass r.1 (owned r.0))) }
{
    let parts = Parts {
        structures: structures(alloc, [1; 24])?,
        managers: managers(alloc)?,
        logs: logs(alloc)?,
        datasets: DataSets::from_vec(Vec::new(alloc)),
        repo: Repo::new(alloc, 1, 1, [false; 4], 1)?,
        objects: objects(alloc)?,
        history: History::new(alloc),
    };
    let queue = name(alloc, "Q1")?;
    let without = parts.logs.need(Member::One, TaskNo::Two, None);
    let with = parts.logs.need(Member::One, TaskNo::Two, Some(19));
    let keep = parts.repo.keep(Member::One);
    let operations = parts.managers.operations(Member::One, TaskNo::Two);
    let checked = check(&parts.objects, queue.as_str(), operations);
    if with < without
        || keep.number > 0
        || parts.objects.structure_count() > 1
        || checked.is_err()
    {
        return Ok(None);
    }
    let work = GetWork::begin(Member::One, TaskNo::Two, queue, select);
    Ok(Some((parts, work)))
}

/// Makes a step. Whether the get goes on.
fn goes_on(alloc: Global, parts: &mut Parts<MemDisk>, work: &mut GetWork) -> bool
    requires may { MayStep work.old (owned parts.old) }
    requires pass { MayPass work.old (owned parts.old) }
    ensures may { result ≡ true → MayStep work.new (owned parts.new) }
    ensures pass { result ≡ true → MayPass work.new (owned parts.new) }
{
    a_get_that_goes_on_may_go_on();
    matches!(work.step(alloc, parts), Ok(Turn::More))
}

/// How such a get ends, and how many operations its unit has then.
fn ending(alloc: Global, msg_id: Option<[u8; 24]>) -> Result<Option<(Turn, usize)>, Fail> {
    let select = Selector {
        msg_id,
        correl_id: None,
    };
    let Some((mut parts, mut work)) = group(alloc, select)? else {
        return Ok(None);
    };
    if !goes_on(alloc, &mut parts, &mut work) || !goes_on(alloc, &mut parts, &mut work) {
        return Ok(None);
    }
    let turn = work.step(alloc, &mut parts)?;
    if parts.managers.len() == 0 {
        return Ok(None);
    }
    let operations = parts.managers.operations(Member::One, TaskNo::Two);
    Ok(Some((turn, operations)))
}

#[test]
fn a_message_is_got(rt: HostRuntime) -> Result<(), Fail> {
    match ending(rt.alloc(), None)? {
        Some((Turn::Ended(Reply::Got(message)), 1)) => {
            assert_eq!(rt; message.body.as_slice(), b"hello".as_slice());
        }
        _ => assert!(rt; false),
    }
    Ok(())
}

#[test]
fn no_message_has_another_id(rt: HostRuntime) -> Result<(), Fail> {
    let ended = ending(rt.alloc(), Some([2; 24]))?;
    assert!(rt;
        matches!(
            &ended,
            Some((Turn::Ended(Reply::Refused(Reason::NoMessage)), 0))
        )
    );
    Ok(())
}
