//! The start of a member whose log has a page, and one whose page is bad.

ghost use Rattle.std.specs.Prelude.{◌≡◌, length, IfSome};
ghost use Rattle.qsg_num.specs.declared.seats.Member.TheVariants as member;
ghost use Rattle.qsg_repo.specs.Tables.{low_of};
ghost use Rattle.qsg_logs.specs.Kept.{log_in};
ghost use Rattle.qsg_logs.specs.Writers.{new_writer};
ghost use Rattle.qsg_parts.specs.Owned.{owned};
ghost use Rattle.qsg_start.specs.Needs.{MayStart};

use crate::{StartTurn, StartWork, only_the_last_step_starts};
use qsg_datasets::DataSets;
use qsg_disk::Disk;
use qsg_disk_mem::MemDisk;
use qsg_logrec::{LogRecord, Spellings, StructSet, cut, encode};
use qsg_logs::{Logs, MemberLog};
use qsg_manager::{Manager, Managers, Structures, Tasks};
use qsg_model::History;
use qsg_num::{Incarnation, LogWhy, Member, PageNo, StructNo, UnitName};
use qsg_objects::Objects;
use qsg_parts::Parts;
use qsg_repo::Repo;
use std::alloc::Global;
use std::test::*;

const FIRST: Incarnation = Incarnation { number: 1 };

const SECOND: Incarnation = Incarnation { number: 2 };

/// The page of the run of a unit.
fn page(alloc: Global) -> Option<Vec<u8>> {
    let unit = UnitName {
        member: Member::One,
        incarnation: FIRST,
        seq: 1,
    };
    let mut records = Vec::new(alloc);
    let commit = LogRecord::CommitIn(unit, StructSet::one(StructNo::One));
    records.push(encode(alloc, &commit).ok()?).ok()?;
    let pages = cut(alloc, &Spellings::from_vec(records)).ok()?;
    if pages.len() == 0 {
        return None;
    }
    Vec::from_slice(alloc, pages.page(0).as_slice()).ok()
}

/// The log of a member that is down, with this body behind an open gate at its first page of two.
fn logs(alloc: Global, body: &[u8]) -> Option<Logs<MemDisk>>
    ensures one { IfSome result (λ l. length l ≡ 1) }
    ensures writer { IfSome result (λ l. (log_in member.One l).writer ≡ new_writer 2) }
{
    let mut device = MemDisk::new(alloc, 8192, Vec::new(alloc)).ok()?;
    if device.size() != 8192 || body.len() > 4095 {
        return None;
    }
    device.write(1, body).ok()?;
    device.write(0, &[1]).ok()?;
    device.sync().ok()?;
    if device.size() != 8192 {
        return None;
    }
    let mut items = Vec::new(alloc);
    items.push(MemberLog::new(device, 2)).ok()?;
    Some(Logs::from_vec(items))
}

/// A member that is down.
fn managers(alloc: Global) -> Option<Managers>
    ensures { IfSome result (λ m. length m ≡ 1) }
{
    let mut items = Vec::new(alloc);
    let manager = Manager {
        up: false,
        incarnation: FIRST,
        next: 2,
        tasks: Tasks::new(alloc).ok()?,
    };
    items.push(manager).ok()?;
    Some(Managers::from_vec(items))
}

/// It was given the first of two incarnations.
fn repo(alloc: Global) -> Option<Repo>
    ensures given { IfSome result (λ r. length r.lives ≡ 1) }
    ensures starts { IfSome result (λ r. r.starts ≡ 2) }
    ensures low { IfSome result (λ r. (low_of member.One r).number ≡ 0) }
{
    let mut repo = Repo::new(alloc, 1, 1, [false; 4], 2).ok()?;
    let _ = repo.started(Member::One);
    Some(repo)
}

/// A group of that member.
fn parts(alloc: Global, body: &[u8]) -> Option<Parts<MemDisk>>
    ensures { IfSome result (λ p. MayStart member.One (owned p)) }
{
    Some(Parts {
        structures: Structures::from_vec(Vec::new(alloc)),
        managers: managers(alloc)?,
        logs: logs(alloc, body)?,
        datasets: DataSets::from_vec(Vec::new(alloc)),
        repo: repo(alloc)?,
        objects: Objects::new(alloc),
        history: History::new(alloc),
    })
}

/// How the start of the member ends, and after how many steps.
fn ending(alloc: Global, parts: &mut Parts<MemDisk>) -> Option<(StartTurn, u32)>
    requires { MayStart member.One (owned parts.old) }
{
    let mut work = StartWork::begin(alloc, Member::One);
    for step in 1..10u32 {
        only_the_last_step_starts();
        match work.step(alloc, parts) {
            Ok(StartTurn::More) => {}
            Ok(turn) => return Some((turn, step)),
            Err(_) => return None,
        }
    }
    None
}

/// The same over a first page of this body, and the page that is written next then.
fn ending_over(alloc: Global, body: &[u8]) -> Option<(StartTurn, u32, u32)> {
    let mut parts = parts(alloc, body)?;
    let (turn, steps) = ending(alloc, &mut parts)?;
    if parts.logs.len() != 1 {
        return None;
    }
    Some((turn, steps, parts.logs.next_page(Member::One).number))
}

#[test]
fn a_log_goes_on_behind_the_pages_that_stand(rt: HostRuntime) {
    let alloc = rt.alloc();
    let Some(body) = page(alloc) else {
        assert!(rt; false);
        return;
    };
    // One step looks at the member, one asks for its low page, and two read.
    let ending = ending_over(alloc, &body);
    assert_eq!(rt; ending, Some((StartTurn::Started(SECOND), 5, 1)));
}

#[test]
fn a_bad_page_ends_the_start_one_step_after_the_read(rt: HostRuntime) {
    let alloc = rt.alloc();
    let Ok(mut body) = vec![in alloc; 0; 4095] else {
        assert!(rt; false);
        return;
    };
    body[0] = 9;
    let why = LogWhy::BadPage {
        page: PageNo { number: 0 },
        at: 0,
    };
    let ending = ending_over(alloc, &body);
    assert_eq!(rt; ending, Some((StartTurn::Fault(why), 4, 0)));
}
