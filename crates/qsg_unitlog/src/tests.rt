//! Runs of units cut into pages, written step by step and read back.

ghost use Rattle.std.specs.Prelude.{◌≡◌};

use crate::{cut_unit, structures_of};
use qsg_disk::Disk;
use qsg_disk_mem::MemDisk;
use qsg_group::Claim;
use qsg_lists::Connection;
use qsg_logpage::{LogWriter, page_room, read_page};
use qsg_logread::Reader;
use qsg_logrec::StructSet;
use qsg_model::Op;
use qsg_msg::Message;
use qsg_num::{
    Body, EntryId, Incarnation, Member, Name, PageNo, Pages, Priority, QueueName, StructNo,
    UnitName,
};
use std::alloc::Global;
use std::test::*;

/// Bytes of the log of the tests: eight pages.
const LOG: u32 = 32768;

/// The name by which the writer of the tests reserves its pages.
const RUN: UnitName = UnitName {
    member: Member::One,
    incarnation: Incarnation { number: 1 },
    seq: 9,
};

/// What the page of a unit begins with that has no persistent operation, on structure 1.
const COMMIT_IN: [u8; 21] = [
    2, 0, 14, 0, 0, 0, 0, 1, 0, 11, 7, 1, 0, 0, 0, 1, 0, 0, 0, 1, 1,
];

fn unit(seq: u32) -> UnitName {
    UnitName {
        member: Member::One,
        incarnation: Incarnation { number: 1 },
        seq,
    }
}

fn put(alloc: Global, length: u16) -> Result<(StructNo, Op), Fail> {
    let body = vec![in alloc; 7; usize::from(length)]?;
    let message = Message {
        id: EntryId::new(1),
        structure: StructNo::One,
        queue: QueueName::from_name(Name::from_str(alloc, "Q1")?)?,
        priority: Priority::Zero,
        persistent: true,
        msg_id: [0; 24],
        correl_id: [0; 24],
        body: Body::from_slice(alloc, &body)?,
    };
    Ok((StructNo::One, Op::Put(message)))
}

fn claim(persistent: bool) -> Claim {
    Claim {
        connection: Connection {
            structure: StructNo::One,
            epoch: 0,
        },
        id: EntryId::new(1),
        persistent,
    }
}

/// The run of a unit that puts a message of this length and gets another one.
fn run(alloc: Global, seq: u32, length: u16, persistent: bool) -> Result<Pages, Fail> {
    let mut ops = Vec::new(alloc);
    ops.push(put(alloc, length)?)?;
    ops.push((StructNo::One, Op::Got(EntryId::new(2))))?;
    let claims = [claim(persistent), claim(false)];
    let set = structures_of(&ops).ok_or("no structures")?;
    Ok(cut_unit(alloc, unit(seq), &ops, &claims, set)?)
}

/// The bytes in use of the area of each page.
fn used(alloc: Global, pages: &Pages) -> Result<Vec<u32>, Fail> {
    let mut used = Vec::new(alloc);
    for i in 0..pages.len() {
        let body = pages.page(i).as_slice();
        used.push(u32::from(body[1]) * 256 + u32::from(body[2]))?;
    }
    Ok(used)
}

#[test]
fn a_unit_without_persistent_operations(rt: HostRuntime) -> Result<(), Fail> {
    let pages = run(rt.alloc(), 1, 5, false)?;
    if pages.len() == 1 {
        let body = pages.page(0).as_slice();
        assert_eq!(rt; &body[..21], COMMIT_IN.as_slice());
        assert!(rt; body[21..].iter().all(|byte| *byte == 0));
    }
    assert_eq!(rt; pages.len(), 1);
    Ok(())
}

/// A record of 81 bytes and one of 11 on one page; two pages that are full; one byte more, which cuts the commit.
#[test]
fn runs_of_several_pages(rt: HostRuntime) -> Result<(), Fail> {
    let runs: [(u16, &[u32]); 3] = [(5, &[98]), (8080, &[4088, 4088]), (8081, &[4088, 4088, 4])];
    for (length, expected) in runs {
        let pages = run(rt.alloc(), 1, length, true)?;
        assert_eq!(rt; used(rt.alloc(), &pages)?.as_slice(), expected);
    }
    Ok(())
}

#[test]
fn sets_of_structures(rt: HostRuntime) -> Result<(), Fail> {
    let sets: [(&[StructNo], Option<u8>); 4] = [
        (&[], None),
        (&[StructNo::One], Some(1)),
        (&[StructNo::Four, StructNo::Two, StructNo::Four], Some(10)),
        (&[StructNo::Three, StructNo::One], Some(5)),
    ];
    for (structures, expected) in sets {
        let mut ops = Vec::new(rt.alloc());
        for structure in structures {
            ops.push((*structure, Op::Got(EntryId::new(1))))?;
        }
        assert_eq!(rt;
            structures_of(&ops).map(|set: StructSet| set.get()),
            expected
        );
    }
    Ok(())
}

/// Writes a run from a page on, so many steps of it at most. Whether it is whole.
fn write_run(disk: &mut MemDisk, next: u32, pages: Pages, steps: u32) -> bool {
    let count = pages.len();
    if count == 0 || count > 8 || next > 8 {
        return false;
    }
    let mut log = LogWriter::new(8, PageNo { number: next });
    if log
        .reserve(RUN, count as u32, PageNo { number: 0 })
        .is_err()
    {
        return false;
    }
    log.begin(RUN, pages);
    for _step in 0..steps {
        if log.in_hand().is_none() || disk.size() != LOG {
            break;
        }
        let _ = log.next_step(disk);
    }
    log.in_hand().is_none()
}

/// Which of units 1 to 3 a reader finds in the log.
fn committed(alloc: Global, disk: &mut MemDisk) -> [bool; 3] {
    let mut reader = Reader::new(alloc);
    for number in 0..8 {
        let no = PageNo { number };
        if disk.size() == LOG
            && let Ok(room) = page_room(alloc)
            && let Ok(Some(page)) = read_page(disk, no, room)
        {
            let _ = reader.feed(no, &page);
        }
    }
    [1, 2, 3].map(|seq| reader.committed(unit(seq)))
}

/// Two runs of two pages and one, a third that a power cut leaves without its last page, and one behind it.
#[test]
fn runs_are_read_back(rt: HostRuntime) -> Result<(), Fail> {
    let alloc = rt.alloc();
    let mut disk = MemDisk::new(alloc, LOG, Vec::new(alloc))?;
    assert!(rt; write_run(&mut disk, 0, run(alloc, 1, 8080, true)?, 8));
    assert_eq!(rt; committed(alloc, &mut disk), [true, false, false]);
    assert!(rt; write_run(&mut disk, 2, run(alloc, 2, 5, true)?, 4));
    assert_eq!(rt; committed(alloc, &mut disk), [true, true, false]);
    assert!(rt; !write_run(&mut disk, 3, run(alloc, 3, 8080, true)?, 6));
    if disk.size() == LOG {
        let _ = disk.power_cut(0, 0);
    }
    assert_eq!(rt; committed(alloc, &mut disk), [true, true, false]);
    assert!(rt; write_run(&mut disk, 4, run(alloc, 3, 5, true)?, 4));
    assert_eq!(rt; committed(alloc, &mut disk), [true, true, true]);
    Ok(())
}
