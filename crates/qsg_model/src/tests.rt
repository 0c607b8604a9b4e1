//! A history of two structures, and what it holds after each of its items.

use super::*;
use qsg_msg::Message;
use qsg_num::{Body, EntryId, Incarnation, Member, Name, Priority, QueueName, StructNo, UnitName};
use std::test::*;

/// The second epoch of a structure, and its third.
const SECOND: u64 = 1 << 40;

const THIRD: u64 = 2 << 40;

fn message(
    rt: HostRuntime,
    structure: StructNo,
    id: u64,
    persistent: bool,
) -> Result<Message, Fail> {
    let name = Name::from_str(rt.alloc(), "Q1")?;
    Ok(Message {
        id: EntryId::new(id),
        structure,
        queue: QueueName::from_name(name).ok().ok_or("a name")?,
        priority: Priority::Three,
        persistent,
        msg_id: [7; 24],
        correl_id: [9; 24],
        body: Body::from_slice(rt.alloc(), b"hello")?,
    })
}

/// A unit that puts these messages and then gets these.
fn unit(
    rt: HostRuntime,
    seq: u32,
    puts: &[(StructNo, u64, bool)],
    gots: &[(StructNo, u64)],
) -> Result<Item, Fail> {
    let mut ops = Vec::new(rt.alloc());
    for (structure, id, persistent) in puts {
        let m = message(rt, *structure, *id, *persistent)?;
        ops.push((*structure, Op::Put(m)))?;
    }
    for (structure, id) in gots {
        ops.push((*structure, Op::Got(EntryId::new(*id))))?;
    }
    let name = UnitName {
        member: Member::One,
        incarnation: Incarnation { number: 1 },
        seq,
    };
    Ok(Item::Unit(name, Ops::from_vec(ops)))
}

fn items(rt: HostRuntime) -> Result<Vec<Item>, Fail> {
    let (one, two) = (StructNo::One, StructNo::Two);
    let mut items = Vec::new(rt.alloc());
    items.push(unit(
        rt,
        1,
        &[(two, 2, false), (one, 3, true), (one, 1, false)],
        &[],
    )?)?;
    items.push(unit(rt, 2, &[(one, 5, true), (one, 4, false)], &[(one, 1)])?)?;
    items.push(Item::Lost(one))?;
    items.push(unit(
        rt,
        3,
        &[(one, 6, false), (one, 7, true), (one, SECOND, false)],
        &[],
    )?)?;
    items.push(Item::Purged(one))?;
    items.push(unit(
        rt,
        4,
        &[(one, 8, true), (one, SECOND + 1, true), (one, THIRD, false)],
        &[],
    )?)?;
    items.push(Item::Lost(two))?;
    Ok(items)
}

/// The structure's number and the id of each message held after so many items.
fn held_after(rt: HostRuntime, count: usize) -> Result<Vec<(u8, u64)>, Fail> {
    let mut items = items(rt)?;
    items.truncate(count);
    let held = held(rt.alloc(), &History::from_vec(items))?;
    let mut keys = Vec::new(rt.alloc());
    for m in held.as_slice() {
        keys.push((m.structure.get(), m.id.get()))?;
    }
    Ok(keys)
}

#[test]
fn each_item_changes_what_is_held(rt: HostRuntime) -> Result<(), Fail> {
    assert_eq!(rt; held_after(rt, 0)?.len(), 0);
    assert_eq!(rt;
        held_after(rt, 1)?.as_slice(),
        [(1, 1), (1, 3), (2, 2)].as_slice()
    );
    assert_eq!(rt;
        held_after(rt, 2)?.as_slice(),
        [(1, 3), (1, 4), (1, 5), (2, 2)].as_slice()
    );
    assert_eq!(rt;
        held_after(rt, 3)?.as_slice(),
        [(1, 3), (1, 5), (2, 2)].as_slice()
    );
    assert_eq!(rt;
        held_after(rt, 4)?.as_slice(),
        [(1, 3), (1, 5), (1, 7), (1, SECOND), (2, 2)].as_slice()
    );
    assert_eq!(rt; held_after(rt, 5)?.as_slice(), [(2, 2)].as_slice());
    assert_eq!(rt;
        held_after(rt, 6)?.as_slice(),
        [(1, THIRD), (2, 2)].as_slice()
    );
    assert_eq!(rt; held_after(rt, 7)?.as_slice(), [(1, THIRD)].as_slice());
    Ok(())
}

#[test]
fn what_is_held_is_a_whole_copy(rt: HostRuntime) -> Result<(), Fail> {
    let held = held(rt.alloc(), &History::from_vec(items(rt)?))?;
    assert_eq!(rt; held.len(), 1);
    let m = held.as_slice().first().ok_or("a message")?;
    assert!(rt; m.queue.is("Q1"));
    assert_eq!(rt; (m.priority, m.persistent), (Priority::Three, false));
    assert_eq!(rt; (m.msg_id, m.correl_id), ([7; 24], [9; 24]));
    assert_eq!(rt; m.body.as_slice(), b"hello".as_slice());
    assert_eq!(rt; held.into_vec().len(), 1);
    Ok(())
}

#[test]
fn a_history_grows_in_its_room(rt: HostRuntime) -> Result<(), Fail> {
    let mut history = History::new(rt.alloc());
    history.reserve(2)?;
    history.push(Item::Lost(StructNo::Two));
    history.push(unit(rt, 1, &[], &[(StructNo::One, 5)])?);
    assert_eq!(rt; history.len(), 2);
    assert!(rt; matches!(history.get(0), Some(Item::Lost(StructNo::Two))));
    assert!(rt; matches!(history.get(1), Some(Item::Unit(..))));
    assert!(rt; history.get(2).is_none());
    let items = history.into_vec();
    assert_eq!(rt; items.len(), 2);
    Ok(())
}
