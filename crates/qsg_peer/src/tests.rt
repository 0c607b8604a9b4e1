//! A member that failed with two marks, over devices that tell their bytes and one that tells nothing.

ghost use Rattle.std.specs.Prelude.{◌<◌, ◌≤◌, ◌+◌, IfSome};

use crate::{PeerTurn, PeerWork};
use qsg_datasets::DataSets;
use qsg_disk::{Disk, Kind, Rig};
use qsg_disk_mem::{BlindRig, MemDisk};
use qsg_lists::{Connection, Head, Place, Structure};
use qsg_logrec::{LogRecord, Spellings, StructSet, cut, encode};
use qsg_logs::{Logs, MemberLog};
use qsg_manager::{Managers, Structures};
use qsg_model::History;
use qsg_num::{
    Bytes, Incarnation, InlineBody, LogWhy, Member, Name, Names, PageNo, Priority, QueueName,
    StructNo, UnitName,
};
use qsg_objects::Objects;
use qsg_parts::Parts;
use qsg_repo::Repo;
use std::alloc::Global;
use std::test::*;

const FIRST: Incarnation = Incarnation { number: 1 };

const RESOLVED: PeerTurn = PeerTurn::Resolved {
    member: Member::One,
    incarnation: FIRST,
    settled: 2,
};

fn unit(seq: u32) -> UnitName {
    UnitName {
        member: Member::One,
        incarnation: FIRST,
        seq,
    }
}

fn head(alloc: Global) -> Option<Head> {
    let name = Name::from_str(alloc, "Q1").ok()?;
    Some(Head {
        queue: QueueName::from_name(name).ok()?,
        priority: Priority::Zero,
        persistent: true,
        msg_id: [0; 24],
        correl_id: [0; 24],
    })
}

/// A structure with an entry more, that this unit put.
fn with_entry(alloc: Global, mut structure: Structure, seq: u32) -> Option<Structure>
    requires { structure.last < 100 }
    ensures { IfSome result (λ s. s.last ≤ structure.last + 1) }
{
    let use_now = Connection {
        structure: StructNo::One,
        epoch: 0,
    };
    let place = Place::Inline(InlineBody::from_slice(alloc, b"a").ok()?);
    let head = head(alloc)?;
    match structure.write_entry(use_now, unit(seq), head, place, 10) {
        Ok(_) => Some(structure),
        Err(_) => None,
    }
}

/// Four structures, the first of which has an entry of each of two units.
fn structures(alloc: Global) -> Option<Structures> {
    let mut items = Vec::new(alloc);
    let empty = Structure::new(alloc, StructNo::One, 10);
    let first = with_entry(alloc, empty, 1)?;
    items.push(with_entry(alloc, first, 2)?).ok()?;
    items.push(Structure::new(alloc, StructNo::Two, 10)).ok()?;
    items.push(Structure::new(alloc, StructNo::Three, 10)).ok()?;
    items.push(Structure::new(alloc, StructNo::Four, 10)).ok()?;
    Some(Structures::from_vec(items))
}

/// Two members, the first of which failed.
fn repo(alloc: Global) -> Option<Repo> {
    let mut repo = Repo::new(alloc, 2, 1, [true; 4], 2).ok()?;
    let _ = repo.started(Member::One);
    let _ = repo.started(Member::Two);
    repo.crashed(Member::One, FIRST);
    Some(repo)
}

/// The page of the run of the first unit.
fn page(alloc: Global) -> Option<Vec<u8>> {
    let mut records = Vec::new(alloc);
    let commit = LogRecord::CommitIn(unit(1), StructSet::one(StructNo::One));
    records.push(encode(alloc, &commit).ok()?).ok()?;
    let pages = cut(alloc, &Spellings::from_vec(records)).ok()?;
    if pages.len() == 0 {
        return None;
    }
    Vec::from_slice(alloc, pages.page(0).as_slice()).ok()
}

/// A device of two pages whose calls of these numbers fail.
fn new_device(alloc: Global, failing: &[u32]) -> Option<MemDisk> {
    let calls = Vec::from_slice(alloc, failing).ok()?;
    MemDisk::new(alloc, 8192, calls).ok()
}

/// A device with this body behind an open gate at its first page.
fn device(alloc: Global, body: &[u8]) -> Option<MemDisk> {
    let mut device = new_device(alloc, &[])?;
    if device.size() != 8192 || body.len() > 4095 {
        return None;
    }
    device.write(1, body).ok()?;
    device.write(0, &[1]).ok()?;
    device.sync().ok()?;
    Some(device)
}

/// That device for the log of the first of eight members, and empty ones for the others.
fn devices(alloc: Global, first: MemDisk) -> Option<Vec<MemDisk>> {
    let mut devices = Vec::new(alloc);
    devices.push(first).ok()?;
    for _member in 1..8u32 {
        devices.push(new_device(alloc, &[])?).ok()?;
    }
    Some(devices)
}

/// The logs on devices of two pages.
fn logs<D: Disk + Drop>(alloc: Global, devices: Vec<D>) -> Option<Logs<D>> {
    let mut logs = Vec::new(alloc);
    for device in devices {
        if device.size() != 8192 {
            return None;
        }
        logs.push(MemberLog::new(device, 2)).ok()?;
    }
    Some(Logs::from_vec(logs))
}

/// A group with these devices for the logs of its members.
fn parts<D: Disk + Drop>(alloc: Global, devices: Vec<D>) -> Option<Parts<D>> {
    Some(Parts {
        structures: structures(alloc)?,
        managers: Managers::from_vec(Vec::new(alloc)),
        logs: logs(alloc, devices)?,
        datasets: DataSets::from_vec(Vec::new(alloc)),
        repo: repo(alloc)?,
        objects: Objects::new(alloc),
        history: History::new(alloc),
    })
}

/// How the work of the second member ends, and after how many steps.
fn ending<D: Disk>(alloc: Global, parts: &mut Parts<D>) -> Option<(PeerTurn, u32)> {
    let mut work = PeerWork::begin(alloc, Member::Two);
    let skip = Names::from_vec(Vec::new(alloc));
    for step in 1..40u32 {
        if parts.logs.len() != 8 || parts.structures.len() != 4 {
            return None;
        }
        match work.step(alloc, parts, &skip) {
            Ok(PeerTurn::More) => {}
            Ok(turn) => return Some((turn, step)),
            Err(_) => return None,
        }
    }
    None
}

/// The same over a first page of this body.
fn ending_over(alloc: Global, body: &[u8]) -> Option<(PeerTurn, u32, Parts<MemDisk>)> {
    let mut parts = parts(alloc, devices(alloc, device(alloc, body)?)?)?;
    let (turn, steps) = ending(alloc, &mut parts)?;
    Some((turn, steps, parts))
}

/// How many messages the first structure has that aren't removed.
fn visible<D: Disk>(parts: &Parts<D>) -> Option<u32> {
    let use_now = Connection {
        structure: StructNo::One,
        epoch: 0,
    };
    if parts.structures.len() != 4 {
        return None;
    }
    parts.structures.depth(use_now, "Q1").ok()
}

#[test]
fn marks_come_off_as_the_log_decides(rt: HostRuntime) {
    let alloc = rt.alloc();
    let Some(body) = page(alloc) else {
        assert!(rt; false);
        return;
    };
    // One step finds the incarnation, one its low page, and two read. The first structure takes six steps, each other
    // one two, and the end one.
    match ending_over(alloc, &body) {
        Some((turn, steps, parts)) => {
            assert_eq!(rt; turn, RESOLVED);
            assert_eq!(rt; steps, 17);
            assert_eq!(rt; visible(&parts), Some(1));
        }
        None => assert!(rt; false),
    }
}

/// The body of a page with this byte at its front, and zeros.
fn front(alloc: Global, byte: u8) -> Option<Vec<u8>> {
    let mut body = vec![in alloc; 0; 4095].ok()?;
    body[0] = byte;
    Some(body)
}

#[test]
fn a_bad_page_ends_the_work_one_step_after_the_read(rt: HostRuntime) {
    let alloc = rt.alloc();
    let Some(body) = front(alloc, 9) else {
        assert!(rt; false);
        return;
    };
    match ending_over(alloc, &body) {
        Some((turn, steps, parts)) => {
            let why = LogWhy::BadPage {
                page: PageNo { number: 0 },
                at: 0,
            };
            assert_eq!(rt; turn, gave_up(why));
            assert_eq!(rt; steps, 4);
            assert_eq!(rt; visible(&parts), Some(2));
        }
        None => assert!(rt; false),
    }
}

fn gave_up(why: LogWhy) -> PeerTurn {
    PeerTurn::GaveUp {
        member: Member::One,
        incarnation: FIRST,
        why,
    }
}

/// How the work ends over a first device whose calls of these numbers fail.
fn ending_with(alloc: Global, failing: &[u32]) -> Option<(PeerTurn, u32)> {
    let mut parts = parts(alloc, devices(alloc, new_device(alloc, failing)?)?)?;
    ending(alloc, &mut parts)
}

#[test]
fn a_read_that_fails_ends_the_work(rt: HostRuntime) {
    let ending = ending_with(rt.alloc(), &[1]);
    assert_eq!(rt; ending, Some((gave_up(LogWhy::Device), 3)));
}

/// How the work ends over devices that read as zeros, whatever was written, and how many messages are left.
fn ending_blind(alloc: Global) -> Option<(PeerTurn, u32, Option<u32>)> {
    let zeros = vec![in alloc; 0; 4096].ok()?;
    let mut rig = BlindRig::new(Bytes::from_vec(zeros));
    let mut devices = Vec::new(alloc);
    for _member in 0..8u32 {
        let device = rig.device(alloc, Member::One, Kind::Log, 8192).ok()?;
        devices.push(device).ok()?;
    }
    let mut parts = parts(alloc, devices)?;
    let (turn, steps) = ending(alloc, &mut parts)?;
    Some((turn, steps, visible(&parts)))
}

#[test]
fn over_an_empty_log_each_unit_is_backed_out(rt: HostRuntime) {
    let ending = ending_blind(rt.alloc());
    assert_eq!(rt; ending, Some((RESOLVED, 16, Some(0))));
}
