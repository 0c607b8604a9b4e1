//! A put and its settling, over a structure and a task; units that put, get, and end.

ghost use Rattle.std.specs.Prelude.{◌≡◌, length, IfSome};
ghost use Rattle.qsg_num.specs.declared.seats.StructNo.TheVariants as structure;
ghost use Rattle.qsg_num.specs.declared.seats.Member.TheVariants as member;
ghost use Rattle.qsg_manager.specs.Facilities.{structure_in};
ghost use Rattle.qsg_manager.specs.Storage.{manager_in};

use super::*;
use qsg_group::{Stage, Task};
use qsg_lists::{Connection, Head, Mark, Place, Selector, Settled, Structure, WriteWhy};
use qsg_model::History;
use qsg_msg::Message;
use qsg_num::{
    Block, Blocks, Body, Delivery, EntryId, Incarnation, InlineBody, Member, Name, PageNo,
    Priority, QueueName, StructNo, TaskNo, UnitName,
};
use std::alloc::Global;
use std::test::*;

const UNIT: UnitName = UnitName {
    member: Member::One,
    incarnation: Incarnation { number: 1 },
    seq: 1,
};

const NOW: Connection = Connection {
    structure: StructNo::One,
    epoch: 0,
};

fn queue(alloc: Global) -> Option<QueueName> {
    QueueName::from_name(Name::from_str(alloc, "Q1").ok()?).ok()
}

/// A put of the body `hello` to a queue of at most so many messages.
fn hello(alloc: Global, max_depth: u32) -> Option<NewEntry> {
    Some(NewEntry {
        head: Head {
            queue: queue(alloc)?,
            priority: Priority::Four,
            persistent: true,
            msg_id: [0; 24],
            correl_id: [0; 24],
        },
        place: Place::Inline(InlineBody::from_slice(alloc, b"hello").ok()?),
        message: Message {
            id: EntryId { number: 0 },
            structure: StructNo::One,
            queue: queue(alloc)?,
            priority: Priority::Four,
            persistent: true,
            msg_id: [0; 24],
            correl_id: [0; 24],
            body: Body::from_slice(alloc, b"hello").ok()?,
        },
        max_depth,
    })
}

/// A structure of ten elements and a task that holds a unit.
fn parts(alloc: Global) -> Option<(Structures, Task)>
    ensures one { IfSome result (λ p. length p.0 ≡ 1) }
    ensures empty { IfSome result (λ p. (structure_in structure.One p.0).last ≡ 0) }
{
    let mut items = Vec::new(alloc);
    items.push(Structure::new(alloc, StructNo::One, 10)).ok()?;
    let mut task = idle_task(alloc);
    task.unit = Some(UNIT);
    Some((Structures::from_vec(items), task))
}

#[test]
fn a_put_is_written_and_settled(rt: HostRuntime) {
    let alloc = rt.alloc();
    let Some((mut structures, mut task)) = parts(alloc) else {
        assert!(rt; false);
        return;
    };
    let (Some(entry), Some(more)) = (hello(alloc, 1), hello(alloc, 1)) else {
        assert!(rt; false);
        return;
    };
    let Ok(id) = write_entry(alloc, &mut structures, &mut task, NOW, UNIT, entry) else {
        assert!(rt; false);
        return;
    };
    assert_eq!(rt; id.get(), 1);
    assert_eq!(rt; task.ops.len(), 1);
    // the queue takes one message
    match write_entry(alloc, &mut structures, &mut task, NOW, UNIT, more) {
        Ok(_) => assert!(rt; false),
        Err(refused) => assert_eq!(rt; refused.why, WriteWhy::QueueFull { depth: 1 }),
    }
    assert_eq!(rt; task.claims.len(), 1);
    assert!(rt; next_claim(&task).is_none());
    task.stage = Stage::Committed {
        first: PageNo { number: 0 },
        settled: 0,
    };
    let Some(claim) = next_claim(&task) else {
        assert!(rt; false);
        return;
    };
    assert!(rt; claim.persistent);
    assert_eq!(rt; claim.id, id);
    if claim.connection != NOW {
        assert!(rt; false);
        return;
    }
    assert_eq!(rt;
        settle_next(&mut structures, &mut task, UNIT, claim),
        Ok(Settled::Done)
    );
    assert!(rt; next_claim(&task).is_none());
    assert_eq!(rt; structures.depth(NOW, "Q1"), Ok(1));
}

/// One member that is up.
fn one_member(alloc: Global) -> Option<Managers>
    ensures one { IfSome result (λ m. length m ≡ 1) }
    ensures next { IfSome result (λ m. (manager_in member.One m).next ≡ 1) }
{
    let mut items = Vec::new(alloc);
    let manager = Manager {
        up: true,
        incarnation: Incarnation { number: 1 },
        next: 1,
        tasks: Tasks::new(alloc).ok()?,
    };
    items.push(manager).ok()?;
    Some(Managers::from_vec(items))
}

#[test]
fn a_member_draws_names_in_order(rt: HostRuntime) {
    let alloc = rt.alloc();
    let Some(mut managers) = one_member(alloc) else {
        assert!(rt; false);
        return;
    };
    assert_eq!(rt; managers.draw(Member::One), UNIT);
    assert_eq!(rt; managers.draw(Member::One).seq, 2);
    let mut task = idle_task(alloc);
    task.unit = Some(UNIT);
    assert_eq!(rt;
        managers.replace_task(Member::One, TaskNo::Three, task).unit,
        None
    );
    let given = managers.replace_task(Member::One, TaskNo::Three, idle_task(alloc));
    assert_eq!(rt; given.unit, Some(UNIT));
    assert_eq!(rt;
        managers.manager(Member::One).tasks.task(TaskNo::Three).unit,
        None
    );
}

/// A structure of ten elements.
fn one_structure(alloc: Global) -> Option<Structures>
    ensures one { IfSome result (λ s. length s ≡ 1) }
    ensures empty { IfSome result (λ s. (structure_in structure.One s).last ≡ 0) }
{
    let mut items = Vec::new(alloc);
    items.push(Structure::new(alloc, StructNo::One, 10)).ok()?;
    Some(Structures::from_vec(items))
}

/// No wish.
const ANY: Selector = Selector {
    msg_id: None,
    correl_id: None,
};

#[test]
fn a_unit_puts_and_commits(rt: HostRuntime) {
    let alloc = rt.alloc();
    let (Some(mut structures), Some(mut managers), Some(entry)) = (
        one_structure(alloc),
        one_member(alloc),
        hello(alloc, 1),
    ) else {
        assert!(rt; false);
        return;
    };
    let mut history = History::new(alloc);
    assert_eq!(rt;
        draw_name(alloc, &mut managers, Member::One, TaskNo::Two),
        UNIT
    );
    let put = put_entry(
        alloc,
        &mut structures,
        &mut managers,
        UNIT,
        TaskNo::Two,
        NOW,
        entry,
    );
    assert!(rt; put.is_ok());
    assert_eq!(rt; managers.operations(Member::One, TaskNo::Two), 1);
    begin_unit(
        &mut managers,
        Member::One,
        TaskNo::Two,
        PageNo { number: 7 },
    );
    assert_eq!(rt; latch(&managers, Member::One), Some(TaskNo::Two));
    if history.reserve(1).is_err() {
        assert!(rt; false);
        return;
    }
    harden_unit(alloc, &mut managers, &mut history, UNIT, TaskNo::Two);
    assert_eq!(rt; history.len(), 1);
    assert_eq!(rt; latch(&managers, Member::One), None);
    assert_eq!(rt;
        first_needed(&managers, Member::One),
        Some(PageNo { number: 7 })
    );
    finish_unit(alloc, &mut managers, Member::One, TaskNo::Two);
    assert_eq!(rt; managers.name(Member::One, TaskNo::Two), None);
}

/// A structure in which this entry waits, as that of id 1.
fn with_waiting(alloc: Global, entry: NewEntry) -> Option<Structures>
    ensures one { IfSome result (λ s. length s ≡ 1) }
{
    let (mut structures, mut task) = parts(alloc)?;
    write_entry(alloc, &mut structures, &mut task, NOW, UNIT, entry).ok()?;
    let id = EntryId { number: 1 };
    structures.settle(NOW, id, UNIT, true).ok()?;
    Some(structures)
}

/// One in which `hello` of queue `Q1` waits, persistent.
fn with_message(alloc: Global) -> Option<Structures>
    ensures one { IfSome result (λ s. length s ≡ 1) }
{
    with_waiting(alloc, hello(alloc, 1)?)
}

#[test]
fn a_unit_gets_and_backs_out(rt: HostRuntime) {
    let alloc = rt.alloc();
    let (Some(mut structures), Some(mut managers), Some(name)) = (
        with_message(alloc),
        one_member(alloc),
        queue(alloc),
    ) else {
        assert!(rt; false);
        return;
    };
    let task = TaskNo::One;
    let unit = draw_name(alloc, &mut managers, Member::One, task);
    let Ok(Some(taken)) = get_entry(
        alloc,
        &mut structures,
        &mut managers,
        unit,
        task,
        NOW,
        &name,
        Delivery::Fifo,
        &ANY,
    ) else {
        assert!(rt; false);
        return;
    };
    assert!(rt;
        matches!(&taken.body, TakenBody::Inside(body) if body.as_slice() == b"hello".as_slice())
    );
    assert_eq!(rt; managers.operations(Member::One, task), 1);
    back_out_unit(alloc, &mut managers, Member::One, task);
    assert_eq!(rt; managers.operations(Member::One, task), 0);
    let Some(claim) = next_claim(managers.task(Member::One, task)) else {
        assert!(rt; false);
        return;
    };
    assert_eq!(rt; claim.id, taken.id);
}

#[test]
fn a_get_is_undone(rt: HostRuntime) {
    let alloc = rt.alloc();
    let (Some(mut structures), Some(mut managers), Some(name)) = (
        with_message(alloc),
        one_member(alloc),
        queue(alloc),
    ) else {
        assert!(rt; false);
        return;
    };
    let task = TaskNo::One;
    let unit = draw_name(alloc, &mut managers, Member::One, task);
    let Ok(Some(taken)) = get_entry(
        alloc,
        &mut structures,
        &mut managers,
        unit,
        task,
        NOW,
        &name,
        Delivery::Fifo,
        &ANY,
    ) else {
        assert!(rt; false);
        return;
    };
    assert_eq!(rt;
        unget_entry(
            alloc,
            &mut structures,
            &mut managers,
            unit,
            task,
            NOW,
            taken.id
        ),
        Ok(Settled::Done)
    );
    assert_eq!(rt; managers.operations(Member::One, task), 0);
    assert!(rt;
        managers
            .task(Member::One, task)
            .claims
            .as_slice()
            .is_empty()
    );
    // it may be had again
    let Ok(Some(again)) = get_entry(
        alloc,
        &mut structures,
        &mut managers,
        unit,
        task,
        NOW,
        &name,
        Delivery::Fifo,
        &ANY,
    ) else {
        assert!(rt; false);
        return;
    };
    assert_eq!(rt; again.id, taken.id);
    // a get that is dropped leaves its mark
    drop_last(alloc, &mut managers, Member::One, task);
    assert_eq!(rt; managers.operations(Member::One, task), 0);
    match structures.entry_at(NOW, taken.id) {
        Ok(Some(entry)) => assert_eq!(rt; entry.mark, Mark::GotBy(unit)),
        _ => assert!(rt; false),
    }
}

/// One in which `hello` waits whose body stands in a block of the second member's data set.
fn with_outside(alloc: Global) -> Option<Structures>
    ensures one { IfSome result (λ s. length s ≡ 1) }
{
    let mut entry = hello(alloc, 1)?;
    entry.place = Place::Offloaded {
        owner: Member::Two,
        blocks: Blocks::from_slice(alloc, &[Block { number: 3 }]).ok()?,
        length: 5,
    };
    with_waiting(alloc, entry)
}

#[test]
fn a_removed_entry_is_forgotten(rt: HostRuntime) {
    let alloc = rt.alloc();
    let (Some(mut structures), Some(name)) = (with_outside(alloc), queue(alloc)) else {
        assert!(rt; false);
        return;
    };
    let Ok(room) = Room::new(alloc, &name) else {
        assert!(rt; false);
        return;
    };
    let none = EntryId { number: 0 };
    let id = EntryId { number: 1 };
    assert!(rt;
        structures
            .take(NOW, UNIT, room, Delivery::Fifo, &ANY)
            .is_ok()
    );
    assert_eq!(rt;
        forget_entry(&mut structures, NOW, id),
        Ok(Settled::NotYours(Some(Mark::GotBy(UNIT))))
    );
    assert_eq!(rt; structures.settle(NOW, id, UNIT, true), Ok(Settled::Done));
    assert!(rt; matches!(structures.entry_after(NOW, none), Ok(Some(e)) if e.id == id));
    assert!(rt; matches!(structures.entry_after(NOW, id), Ok(None)));
    assert!(rt;
        matches!(structures.cleanup_after(NOW, Member::Two, none), Ok(Some(e)) if e.id == id)
    );
    assert!(rt; matches!(structures.cleanup_after(NOW, Member::One, none), Ok(None)));
    assert_eq!(rt; forget_entry(&mut structures, NOW, id), Ok(Settled::Done));
    assert!(rt; matches!(structures.entry_at(NOW, id), Ok(None)));
    assert_eq!(rt;
        forget_entry(&mut structures, NOW, id),
        Ok(Settled::NotYours(None))
    );
}
