//! A member that stops, over devices whose calls may fail.

ghost use Rattle.std.specs.Prelude.{◌≡◌, ◌<◌, length, IfSome};
ghost use Rattle.qsg_num.specs.declared.seats.Member.TheVariants as member;
ghost use Rattle.qsg_num.specs.declared.seats.StructNo.TheVariants as structure;
ghost use Rattle.qsg_disk_mem.specs.Mem.{cells_in};
ghost use Rattle.qsg_datasets.specs.Kept.{HasSet};
ghost use Rattle.qsg_parts.specs.Owned.{owned, HasMember};
ghost use Rattle.qsg_stop.specs.Needs.{HasSets, MayStep};

use crate::{StopTurn, StopWork, begin_stop};
use qsg_dataset::DataSet;
use qsg_datasets::{DataSets, Found, Hand, MemberDataSet, MemberDataSets};
use qsg_disk_mem::MemDisk;
use qsg_lists::Structure;
use qsg_logs::{Logs, MemberLog};
use qsg_manager::{Manager, Managers, Structures, Tasks};
use qsg_model::History;
use qsg_num::{Blocks, Incarnation, Member, Names, StructNo, TaskNo};
use qsg_objects::Objects;
use qsg_parts::Parts;
use qsg_repo::{Access, Repo, Smds, Status};
use std::alloc::Global;
use std::test::*;

/// The epoch of the structure.
const EPOCH: u32 = 0;

const FIRST: Incarnation = Incarnation { number: 1 };

/// One member that is up.
fn managers(alloc: Global) -> Option<Managers>
    ensures { IfSome result (λ m. length m ≡ 1) }
{
    let mut items = Vec::new(alloc);
    let manager = Manager {
        up: true,
        incarnation: FIRST,
        next: 1,
        tasks: Tasks::new(alloc).ok()?,
    };
    items.push(manager).ok()?;
    Some(Managers::from_vec(items))
}

/// Its log, of two pages.
fn logs(alloc: Global) -> Option<Logs<MemDisk>>
    ensures { IfSome result (λ l. length l ≡ 1) }
{
    let mut items = Vec::new(alloc);
    items
        .push(MemberLog::new(MemDisk::new(alloc, 8192, Vec::new(alloc)).ok()?, 2))
        .ok()?;
    Some(Logs::from_vec(items))
}

/// One structure, which is empty.
fn structures(alloc: Global) -> Option<Structures>
    ensures { IfSome result (λ s. length s ≡ 1) }
{
    let mut items = Vec::new(alloc);
    items.push(Structure::new(alloc, StructNo::One, 10)).ok()?;
    Some(Structures::from_vec(items))
}

/// A device for a data set of four blocks of 512 bytes, one of whose calls fails.
fn device(alloc: Global, failing: u32) -> Option<MemDisk>
    ensures { IfSome result (λ d. length (cells_in d) ≡ 6144) }
{
    let mut calls = Vec::new(alloc);
    calls.push(failing).ok()?;
    MemDisk::new(alloc, 6_144, calls).ok()
}

/// That data set, with a map for an epoch that uses so many blocks. No task holds them.
fn data_set(alloc: Global, case: Case) -> Option<MemberDataSet<MemDisk>> {
    let device = device(alloc, case.failing)?;
    let mut set = MemberDataSet::new(alloc, DataSet::new(device, 512)).ok()?;
    set.take(alloc, TaskNo::One, case.epoch, case.used).ok()?;
    let nothing = Hand {
        epoch: 0,
        blocks: Blocks::from_slice(alloc, &[]).ok()?,
    };
    set.exchange(TaskNo::One, nothing);
    Some(set)
}

/// The data set of that member for that structure.
fn datasets(alloc: Global, case: Case) -> Option<DataSets<MemDisk>>
    ensures { IfSome result (HasSet member.One structure.One) }
{
    let mut sets = Vec::new(alloc);
    sets.push(data_set(alloc, case)?).ok()?;
    let mut rows = Vec::new(alloc);
    rows.push(MemberDataSets::from_vec(sets)).ok()?;
    Some(DataSets::from_vec(rows))
}

/// The epoch of the member's map, the blocks that it uses, and the number of the call that fails, from 1; 0 for none.
#[derive(Clone, Copy)]
struct Case {
    epoch: u32,
    used: u32,
    failing: u32,
}

/// A group of that member, with that structure and an active data set.
fn parts(alloc: Global, case: Case) -> Option<Parts<MemDisk>>
    ensures member { IfSome result (λ p. HasMember member.One (owned p)) }
    ensures sets { IfSome result (λ p. HasSets member.One (owned p)) }
{
    let mut repo = Repo::new(alloc, 1, 1, [false; 4], 1).ok()?;
    let _ = repo.started(Member::One);
    repo.smds_use(Member::One, StructNo::One);
    Some(Parts {
        structures: structures(alloc)?,
        managers: managers(alloc)?,
        logs: logs(alloc)?,
        datasets: datasets(alloc, case)?,
        repo,
        objects: Objects::new(alloc),
        history: History::new(alloc),
    })
}

/// After how many steps a STOP has ended.
fn run(alloc: Global, mut work: StopWork, parts: &mut Parts<MemDisk>) -> Option<u32>
    requires { MayStep work (owned parts.old) }
{
    for step in 1..9u32 {
        match work.step(alloc, parts) {
            StopTurn::More => {}
            StopTurn::Stopped => return Some(step),
        }
    }
    None
}

/// What a START of the next incarnation loads, and how many blocks are used then.
fn loaded(alloc: Global, datasets: DataSets<MemDisk>, epoch: u32) -> Option<(Found, u32)> {
    let mut rows = datasets.into_vec();
    let mut sets = rows.pop()?.into_vec();
    let mut set = sets.pop()?;
    if set.stands(epoch) {
        return None;
    }
    let found = set.load(alloc, epoch).ok()?;
    Some((found, set.used(epoch)))
}

/// The steps of a STOP behind its check, what is loaded then, and the status of the data set.
fn stopped(alloc: Global, case: Case) -> Option<(u32, Found, u32, Status)> {
    let mut parts = parts(alloc, case)?;
    let work = begin_stop(alloc, &mut parts, Member::One);
    if parts.managers.manager(Member::One).up {
        return None;
    }
    let steps = run(alloc, work, &mut parts)?;
    let skip = Names::from_vec(Vec::new(alloc));
    if parts.repo.first_failed(&skip).is_some() {
        return None;
    }
    let status = parts.repo.smds(Member::One, StructNo::One).status;
    let (found, used) = loaded(alloc, parts.datasets, EPOCH)?;
    Some((steps, found, used, status))
}

const NOTHING: Found = Found {
    has_map: false,
    gate_open: false,
};

const SAVED: Found = Found {
    has_map: true,
    gate_open: true,
};

#[test]
fn a_stop_saves_the_map_for_the_next_start(rt: HostRuntime) {
    let alloc = rt.alloc();
    let case = Case {
        epoch: EPOCH,
        used: 3,
        failing: 0,
    };
    assert_eq!(rt; stopped(alloc, case), Some((7, SAVED, 3, Status::Active)));
    let free = Case { used: 0, ..case };
    assert_eq!(rt; stopped(alloc, free), Some((7, SAVED, 0, Status::Empty)));
}

#[test]
fn a_map_of_another_epoch_is_not_saved(rt: HostRuntime) {
    let alloc = rt.alloc();
    let case = Case {
        epoch: EPOCH + 1,
        used: 0,
        failing: 0,
    };
    assert_eq!(rt; stopped(alloc, case), Some((2, NOTHING, 0, Status::Active)));
}

#[test]
fn a_call_that_fails_ends_the_saving_alone(rt: HostRuntime) {
    let alloc = rt.alloc();
    for failing in 1..5u32 {
        let case = Case {
            epoch: EPOCH,
            used: 3,
            failing,
        };
        let found = if failing == 4 { SAVED } else { NOTHING };
        let used = if failing == 4 { 3 } else { 0 };
        assert_eq!(rt;
            stopped(alloc, case),
            Some((3 + failing, found, used, Status::Active))
        );
    }
}
