//! Each command once, over small structures.

ghost use Rattle.std.specs.Prelude.{◌≡◌, ◌+◌, ◌^◌, ◌<◌, ◌≤◌, length, IfSome};

use super::*;
use qsg_num::{
    Block, Blocks, Delivery, EntryId, Incarnation, InlineBody, Member, Name, Priority, QueueName,
    StructNo, UnitName,
};
use std::alloc::Global;
use std::test::Fail;

const ANY: Selector = Selector {
    msg_id: None,
    correl_id: None,
};

const ONE: UnitName = UnitName {
    member: Member::One,
    incarnation: Incarnation { number: 1 },
    seq: 1,
};

const TWO: UnitName = UnitName {
    member: Member::Two,
    incarnation: Incarnation { number: 3 },
    seq: 1,
};

const NOW: Connection = Connection {
    structure: StructNo::One,
    epoch: 0,
};

const NOWHERE: EntryId = EntryId { number: 0 };

fn head(alloc: Global, text: &str, priority: Priority) -> Option<Head> {
    let name = Name::from_str(alloc, text).ok()?;
    let queue = QueueName::from_name(name).ok()?;
    Some(Head {
        queue,
        priority,
        persistent: true,
        msg_id: [1; 24],
        correl_id: [2; 24],
    })
}

fn inside(alloc: Global, bytes: &[u8]) -> Option<Place>
    requires { length bytes.now ≤ 64512 }
{
    Some(Place::Inline(InlineBody::from_slice(alloc, bytes).ok()?))
}

fn outside(alloc: Global) -> Option<Place> {
    let blocks = Blocks::from_slice(alloc, &[Block { number: 3 }]).ok()?;
    Some(Place::Offloaded {
        owner: Member::Two,
        blocks,
        length: 70_000,
    })
}

/// Puts an entry and commits it, and answers its id.
fn put(s: &mut Structure, head: Option<Head>, place: Option<Place>) -> Option<u64>
    requires { s.old.last + 1 < 2 ^ 40 }
    ensures { s.new.last ≤ s.old.last + 1 }
{
    let id = s.write_entry(NOW, ONE, head?, place?, 10).ok()?;
    if s.settle(NOW, id, ONE, true) != Ok(Settled::Done) {
        return None;
    }
    Some(id.get())
}

/// The id of the entry that a get of unit two is given.
fn got(s: &mut Structure, order: Delivery, select: &Selector) -> Option<u64> {
    match s.take(NOW, TWO, "Q", order, select) {
        Ok(Some(e)) => Some(e.id.get()),
        _ => None,
    }
}

/// Three entries of priorities 2, 7 and 7, of which one body is outside.
fn three(alloc: Global) -> Option<Structure>
    ensures { IfSome result (λ s. s.last ≤ 3) }
{
    let mut s = Structure::new(alloc, StructNo::One, 7);
    put(&mut s, head(alloc, "Q", Priority::Two), inside(alloc, b""))?;
    put(&mut s, head(alloc, "Q", Priority::Seven), outside(alloc))?;
    put(
        &mut s,
        head(alloc, "Q", Priority::Seven),
        inside(alloc, &[9; 257]),
    )?;
    Some(s)
}

/// By falling priority and then in order of putting, or in order of putting alone; and by what is asked for.
#[test]
fn orders_of_delivery(rt: HostRuntime) -> Result<(), Fail> {
    let alloc = rt.alloc();
    let other = Selector {
        msg_id: Some([1; 24]),
        correl_id: Some([3; 24]),
    };
    let orders = [
        (Delivery::Priority, [Some(2), Some(3), Some(1), None]),
        (Delivery::Fifo, [Some(1), Some(2), Some(3), None]),
    ];
    for (order, ids) in orders {
        let Some(mut s) = three(alloc) else {
            assert!(rt; false);
            return Ok(());
        };
        assert_eq!(rt; got(&mut s, order, &other), None);
        for id in ids {
            assert_eq!(rt; got(&mut s, order, &ANY), id);
        }
    }
    Ok(())
}

/// What each look-up tells of three entries, and what a full structure and a full queue refuse.
#[test]
fn looks_and_refusals(rt: HostRuntime) -> Result<(), Fail> {
    let alloc = rt.alloc();
    let Some(mut s) = three(alloc) else {
        assert!(rt; false);
        return Ok(());
    };
    let top = EntryId { number: 3 };
    assert_eq!(rt; s.state(), (State::Active, 0));
    assert_eq!(rt; s.size(), (6, 7));
    assert_eq!(rt; s.depth(NOW, "Q"), Ok(3));
    assert_eq!(rt; s.depth(NOW, "R"), Ok(0));
    let seen = Seen {
        connection: NOW,
        used: 6,
        capacity: 7,
        top,
    };
    assert_eq!(rt; s.connect(), Ok(seen));
    assert_eq!(rt; got(&mut s, Delivery::Priority, &ANY), Some(2));
    let second = Some(EntryId { number: 2 });
    assert_eq!(rt; s.any_after(EntryId { number: 1 }).map(|e| e.id), second);
    let after = s.entry_after(NOW, EntryId { number: 1 });
    assert!(rt; matches!(after, Ok(Some(e)) if Some(e.id) == second));
    let marked = s.marked_after(NOW, Member::Two, Incarnation { number: 3 }, NOWHERE);
    assert!(rt; matches!(marked, Ok(Some(e)) if Some(e.id) == second));
    assert!(rt; matches!(s.cleanup_after(NOW, Member::Two, NOWHERE), Ok(None)));
    let id = EntryId { number: 2 };
    assert_eq!(rt;
        s.settle(NOW, id, ONE, true),
        Ok(Settled::NotYours(Some(Mark::GotBy(TWO))))
    );
    assert_eq!(rt;
        s.forget(NOW, id),
        Ok(Settled::NotYours(Some(Mark::GotBy(TWO))))
    );
    assert_eq!(rt; s.settle(NOW, id, TWO, true), Ok(Settled::Done));
    assert!(rt; matches!(s.entry(NOW, id), Ok(Some(e)) if e.mark == Mark::Cleanup));
    let removed = s.cleanup_after(NOW, Member::Two, NOWHERE);
    assert!(rt; matches!(removed, Ok(Some(e)) if e.id == id));
    assert_eq!(rt; s.depth(NOW, "Q"), Ok(2));
    assert_eq!(rt; s.size(), (6, 7));
    assert_eq!(rt; s.forget(NOW, id), Ok(Settled::Done));
    assert_eq!(rt; s.forget(NOW, id), Ok(Settled::NotYours(None)));
    assert_eq!(rt; s.size(), (4, 7));
    Ok(())
}

/// Why a write of a body of 600 bytes, or of none, is refused.
fn refused(
    s: &mut Structure,
    c: Connection,
    head: Option<Head>,
    place: Option<Place>,
) -> Option<WriteWhy>
    requires { s.old.last + 1 < 2 ^ 40 }
    ensures { s.new.last ≤ s.old.last + 1 }
{
    match s.write_entry(c, ONE, head?, place?, 3) {
        Ok(_) => None,
        Err(refused) => Some(refused.why),
    }
}

/// A write is refused where its connection is lost, where it needs an element too many, and where its queue is full.
#[test]
fn refused_writes(rt: HostRuntime) -> Result<(), Fail> {
    let alloc = rt.alloc();
    let Some(mut s) = three(alloc) else {
        assert!(rt; false);
        return Ok(());
    };
    let lost = Lost {
        state: State::Active,
        epoch: 0,
    };
    let later = Connection {
        structure: StructNo::One,
        epoch: 1,
    };
    let low = Priority::Two;
    let (long, short) = (inside(alloc, &[0; 256]), inside(alloc, b"x"));
    assert_eq!(rt;
        refused(&mut s, later, head(alloc, "Q", low), short),
        Some(WriteWhy::Lost(lost))
    );
    let full = WriteWhy::Full { need: 2, free: 1 };
    assert_eq!(rt;
        refused(&mut s, NOW, head(alloc, "R", low), long),
        Some(full)
    );
    let deep = WriteWhy::QueueFull { depth: 3 };
    assert_eq!(rt;
        refused(&mut s, NOW, head(alloc, "Q", low), inside(alloc, b"")),
        Some(deep)
    );
    assert_eq!(rt; s.size(), (6, 7));
    Ok(())
}

/// A structure is lost, its recovery is begun, given up and begun again, and it serves its users in a later epoch.
#[test]
fn loss_and_recovery(rt: HostRuntime) -> Result<(), Fail> {
    let alloc = rt.alloc();
    let mut s = Structure::new(alloc, StructNo::Four, 9);
    assert!(rt; !s.lose_at(1));
    assert_eq!(rt; s.lose(), Ok(()));
    assert!(rt; !s.lose_at(1));
    let failed = Lost {
        state: State::Failed,
        epoch: 1,
    };
    assert_eq!(rt; s.connect(), Err(failed));
    let first = Incarnation { number: 1 };
    let dead = [None; 8];
    let mut live = dead;
    live[7] = Some(first);
    let c = Connection {
        structure: StructNo::Four,
        epoch: 1,
    };
    assert_eq!(rt; s.begin_recover(Member::Eight, first, &live), Ok(c));
    let busy = Err(RecoverFault::InRecover(Member::Eight));
    assert_eq!(rt; s.begin_recover(Member::One, first, &live), busy);
    assert_eq!(rt; s.begin_recover(Member::One, first, &dead), Ok(c));
    s.abandon_recover();
    assert_eq!(rt; s.begin_recover(Member::One, first, &live), Ok(c));
    let (Some(head), Some(place)) = (head(alloc, "Q", Priority::Nine), outside(alloc)) else {
        assert!(rt; false);
        return Ok(());
    };
    let entry = Entry {
        id: EntryId { number: 5 },
        head,
        place,
        mark: Mark::Visible,
    };
    assert!(rt; s.restore_entry(c, entry).is_ok());
    s.end_recover(4);
    assert_eq!(rt; s.state(), (State::Active, 4));
    assert_eq!(rt; s.size(), (2, 9));
    assert_eq!(rt; s.lose_at(4), true);
    Ok(())
}
