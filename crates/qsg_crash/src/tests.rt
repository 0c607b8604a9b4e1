//! A member that crashes while the last page of a unit's run is in hand.

ghost use Rattle.std.specs.Prelude.{◌≡◌, ◌<◌, length, IfSome};
ghost use Rattle.qsg_num.specs.declared.seats.Member.TheVariants as member;
ghost use Rattle.qsg_disk_mem.specs.Mem.{cells_in};
ghost use Rattle.qsg_logs.specs.Kept.{log_in};
ghost use Rattle.qsg_logs.specs.Writers.{new_writer};

use crate::crash;
use qsg_dataset::DataSet;
use qsg_datasets::{DataSets, MemberDataSet, MemberDataSets};
use qsg_disk_mem::MemDisk;
use qsg_group::{Claims, Stage, Task};
use qsg_logs::{Logs, MemberLog};
use qsg_manager::{Manager, Managers, Structures, Tasks};
use qsg_model::{History, Op, Ops};
use qsg_num::{
    EntryId, Incarnation, Member, Names, Page, PageNo, Pages, StructNo, TaskNo, UnitName,
};
use qsg_objects::Objects;
use qsg_parts::Parts;
use qsg_repo::Repo;
use std::alloc::Global;
use std::test::*;

const FIRST: Incarnation = Incarnation { number: 1 };

/// The epoch of the structure.
const EPOCH: u32 = 3;

const UNIT: UnitName = UnitName {
    member: Member::One,
    incarnation: FIRST,
    seq: 1,
};

/// A unit that got an entry, and whose run is being written from page 0 on.
fn task(alloc: Global) -> Option<Task> {
    let mut ops = Vec::new(alloc);
    ops.push((StructNo::One, Op::Got(EntryId { number: 1 })))
        .ok()?;
    Some(Task {
        unit: Some(UNIT),
        ops: Ops::from_vec(ops),
        claims: Claims::from_vec(Vec::new(alloc)),
        stage: Stage::Hardening(PageNo { number: 0 }),
    })
}

/// One member that is up, with that unit.
fn managers(alloc: Global) -> Option<Managers>
    ensures { IfSome result (λ m. length m ≡ 1) }
{
    let mut tasks = Tasks::new(alloc).ok()?;
    tasks.replace(TaskNo::One, task(alloc)?);
    let mut items = Vec::new(alloc);
    let manager = Manager {
        up: true,
        incarnation: FIRST,
        next: 2,
        tasks,
    };
    items.push(manager).ok()?;
    Some(Managers::from_vec(items))
}

/// A log of two pages.
fn logs(alloc: Global) -> Option<Logs<MemDisk>>
    ensures one { IfSome result (λ l. length l ≡ 1) }
    ensures writer { IfSome result (λ l. (log_in member.One l).writer ≡ new_writer 2) }
{
    let mut items = Vec::new(alloc);
    items
        .push(MemberLog::new(MemDisk::new(alloc, 8192, Vec::new(alloc)).ok()?, 2))
        .ok()?;
    Some(Logs::from_vec(items))
}

/// A body of ones.
fn one_page(alloc: Global) -> Option<Pages>
    ensures { IfSome result (λ p. length p ≡ 1) }
{
    let mut pages = Vec::new(alloc);
    pages
        .push(Page::from_vec(vec![in alloc; 1; 4095].ok()?))
        .ok()?;
    Some(Pages::from_vec(pages))
}

/// That log with the unit's run in hand, whose one page has its body safe and its gate written.
fn logs_in_hand(alloc: Global) -> Option<Logs<MemDisk>>
    ensures { IfSome result (λ l. length l ≡ 1) }
{
    let (mut logs, run) = (logs(alloc)?, one_page(alloc)?);
    if logs.need(Member::One, TaskNo::One, None) != 1 {
        return None;
    }
    logs.reserve(Member::One, TaskNo::One, UNIT, None, PageNo { number: 0 })
        .ok()?;
    logs.begin(Member::One, UNIT, run);
    for _step in 0..3u32 {
        if logs.len() != 1 || logs.in_hand(Member::One).is_none() {
            return None;
        }
        logs.next_step(Member::One).ok()?;
    }
    if logs.len() != 1 {
        return None;
    }
    Some(logs)
}

/// A device for a data set of four blocks of 512 bytes.
fn device(alloc: Global) -> Option<MemDisk>
    ensures { IfSome result (λ d. length (cells_in d) ≡ 6144) }
{
    MemDisk::new(alloc, 6_144, Vec::new(alloc)).ok()
}

/// That data set, which was never used.
fn data_set(alloc: Global) -> Option<MemberDataSet<MemDisk>> {
    let device = device(alloc)?;
    MemberDataSet::new(alloc, DataSet::new(device, 512)).ok()
}

/// The data set of that member, with a map for the epoch, from which the task has taken a block.
fn datasets(alloc: Global) -> Option<DataSets<MemDisk>>
    ensures { IfSome result (λ d. length d ≡ 1) }
{
    let mut set = data_set(alloc)?;
    set.take(alloc, TaskNo::One, EPOCH, 1).ok()?;
    let mut sets = Vec::new(alloc);
    sets.push(set).ok()?;
    let mut rows = Vec::new(alloc);
    rows.push(MemberDataSets::from_vec(sets)).ok()?;
    Some(DataSets::from_vec(rows))
}

/// Whether the map stands, and how many blocks the task has taken.
fn kept(datasets: DataSets<MemDisk>) -> Option<(bool, usize)> {
    let mut rows = datasets.into_vec();
    let mut sets = rows.pop()?.into_vec();
    let set = sets.pop()?;
    Some((
        set.stands(EPOCH),
        set.hand(TaskNo::One).blocks.as_slice().len(),
    ))
}

/// A group of that member.
fn parts(alloc: Global) -> Option<Parts<MemDisk>>
    ensures managers { IfSome result (λ p. length p.managers ≡ 1) }
    ensures logs { IfSome result (λ p. length p.logs ≡ 1) }
    ensures datasets { IfSome result (λ p. length p.datasets ≡ 1) }
    ensures room { IfSome result (λ p. 0 < p.history.room) }
{
    let mut history = History::new(alloc);
    history.reserve(1).ok()?;
    let mut repo = Repo::new(alloc, 1, 1, [false; 4], 1).ok()?;
    let _ = repo.started(Member::One);
    Some(Parts {
        structures: Structures::from_vec(Vec::new(alloc)),
        managers: managers(alloc)?,
        logs: logs_in_hand(alloc)?,
        datasets: datasets(alloc)?,
        repo,
        objects: Objects::new(alloc),
        history,
    })
}

/// How many units the history has once the member crashed, the page that is written next, and whether the member is down
/// and failed and its task holds nothing.
fn crashed(alloc: Global, pick: u64) -> Option<(usize, u32, bool)> {
    let mut parts = parts(alloc)?;
    crash(alloc, &mut parts, Member::One, pick);
    let skip = Names::from_vec(Vec::new(alloc));
    let failed = parts.repo.first_failed(&skip) == Some((Member::One, FIRST));
    let down = !parts.managers.manager(Member::One).up
        && parts.managers.name(Member::One, TaskNo::One).is_none();
    Some((
        parts.history.len(),
        parts.logs.next_page(Member::One).number,
        failed && down,
    ))
}

#[test]
fn a_unit_is_committed_where_the_cut_left_its_page(rt: HostRuntime) {
    let alloc = rt.alloc();
    assert_eq!(rt; crashed(alloc, 1), Some((1, 1, true)));
    assert_eq!(rt; crashed(alloc, 0), Some((0, 0, true)));
}

#[test]
fn a_member_keeps_nothing_of_its_data_sets(rt: HostRuntime) {
    let alloc = rt.alloc();
    assert_eq!(rt; datasets(alloc).and_then(kept), Some((true, 1)));
    let after = parts(alloc).and_then(|mut parts| {
        crash(alloc, &mut parts, Member::One, 1);
        kept(parts.datasets)
    });
    assert_eq!(rt; after, Some((false, 0)));
}
