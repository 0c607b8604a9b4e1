//! Removed entries of two members, each of which cleans its own.

ghost use Rattle.std.specs.Prelude.{◌≡◌, ◌<◌, ◌≤◌, ◌+◌, length, IfSome};
ghost use Rattle.qsg_num.specs.declared.seats.Member.TheVariants as member;
ghost use Rattle.qsg_num.specs.declared.seats.StructNo.TheVariants as structure;
ghost use Rattle.qsg_disk_mem.specs.Mem.{cells_in};
ghost use Rattle.qsg_datasets.specs.Kept.{HasSet};
ghost use Rattle.qsg_parts.specs.Owned.{owned};
ghost use Rattle.qsg_cleaning.specs.Needs.{MayClean};

use crate::{CleaningTurn, CleaningWork, Phase, first_to_clean, has_cleaning};
use qsg_dataset::DataSet;
use qsg_datasets::{DataSets, MemberDataSet, MemberDataSets};
use qsg_disk_mem::MemDisk;
use qsg_lists::{Connection, Head, Place, Structure};
use qsg_logs::Logs;
use qsg_manager::{Managers, Structures};
use qsg_model::History;
use qsg_num::{
    Block, Blocks, Incarnation, Member, Name, Priority, QueueName, StructNo, TaskNo, UnitName,
};
use qsg_objects::Objects;
use qsg_parts::Parts;
use qsg_repo::Repo;
use std::alloc::Global;
use std::test::*;

/// The epoch of the structure.
const EPOCH: u32 = 0;

const USE: Connection = Connection {
    structure: StructNo::One,
    epoch: EPOCH,
};

const UNIT: UnitName = UnitName {
    member: Member::Three,
    incarnation: Incarnation { number: 1 },
    seq: 1,
};

fn head(alloc: Global) -> Option<Head> {
    let name = Name::from_str(alloc, "Q1").ok()?;
    Some(Head {
        queue: QueueName::from_name(name).ok()?,
        priority: Priority::Zero,
        persistent: true,
        msg_id: [0; 24],
        correl_id: [0; 24],
    })
}

/// A structure with an entry more, whose body stands in these blocks of an owner. It is removed, or else still pending.
fn with_entry(
    alloc: Global,
    mut structure: Structure,
    owner: Member,
    blocks: &[Block],
    removed: bool,
) -> Option<Structure>
    requires { structure.last < 100 }
    ensures { IfSome result (λ s. s.last ≤ structure.last + 1) }
{
    let place = Place::Offloaded {
        owner,
        blocks: Blocks::from_slice(alloc, blocks).ok()?,
        length: 512,
    };
    let head = head(alloc)?;
    match structure.write_entry(USE, UNIT, head, place, 10) {
        Ok(id) => {
            if removed {
                structure.settle(USE, id, UNIT, false).ok()?;
            }
            Some(structure)
        }
        Err(_) => None,
    }
}

/// One structure, with a removed entry of each of two members, and a pending one of the first of them.
fn structures(alloc: Global) -> Option<Structures>
    ensures { IfSome result (λ s. length s ≡ 1) }
{
    let empty = Structure::new(alloc, StructNo::One, 10);
    let (zero, one, two) = (
        Block { number: 0 },
        Block { number: 1 },
        Block { number: 2 },
    );
    let first = with_entry(alloc, empty, Member::Two, &[zero], true)?;
    let second = with_entry(alloc, first, Member::One, &[zero, one], true)?;
    let third = with_entry(alloc, second, Member::One, &[two], false)?;
    let mut items = Vec::new(alloc);
    items.push(third).ok()?;
    Some(Structures::from_vec(items))
}

/// A device for a data set of four blocks of 512 bytes.
fn device(alloc: Global) -> Option<MemDisk>
    ensures { IfSome result (λ d. length (cells_in d) ≡ 6144) }
{
    MemDisk::new(alloc, 6_144, Vec::new(alloc)).ok()
}

/// That data set, with a map for an epoch that uses the first three blocks.
fn data_set(alloc: Global, epoch: u32) -> Option<MemberDataSet<MemDisk>> {
    let device = device(alloc)?;
    let mut set = MemberDataSet::new(alloc, DataSet::new(device, 512)).ok()?;
    set.take(alloc, TaskNo::One, epoch, 3).ok()?;
    Some(set)
}

/// The data set of the first member for that structure.
fn datasets(alloc: Global, epoch: u32) -> Option<DataSets<MemDisk>>
    ensures { IfSome result (HasSet member.One structure.One) }
{
    let mut sets = Vec::new(alloc);
    sets.push(data_set(alloc, epoch)?).ok()?;
    let mut rows = Vec::new(alloc);
    rows.push(MemberDataSets::from_vec(sets)).ok()?;
    Some(DataSets::from_vec(rows))
}

/// A group with that structure and that data set.
fn parts(alloc: Global, epoch: u32) -> Option<Parts<MemDisk>>
    ensures { IfSome result (λ p. MayClean member.One structure.One (owned p)) }
{
    Some(Parts {
        structures: structures(alloc)?,
        managers: Managers::from_vec(Vec::new(alloc)),
        logs: Logs::from_vec(Vec::new(alloc)),
        datasets: datasets(alloc, epoch)?,
        repo: Repo::new(alloc, 1, 1, [false; 4], 1).ok()?,
        objects: Objects::new(alloc),
        history: History::new(alloc),
    })
}

/// After how many steps a cleaning of the first member has ended.
fn run(mut work: CleaningWork, parts: &mut Parts<MemDisk>) -> Option<u32>
    requires member { work.member ≡ member.One }
    requires structure { work.structure ≡ structure.One }
    requires may { MayClean member.One structure.One (owned parts.old) }
    ensures { MayClean member.One structure.One (owned parts.new) }
{
    for step in 1..5u32 {
        match work.step(parts) {
            CleaningTurn::More => {}
            CleaningTurn::Done => return Some(step),
        }
    }
    None
}

/// The steps of a cleaning, the entries that are left then, and the used blocks of the map of an epoch.
fn cleaned(alloc: Global, epoch: u32, phase: Phase) -> Option<(u32, usize, u32)> {
    let mut parts = parts(alloc, epoch)?;
    let mut work = CleaningWork::begin(Member::One, StructNo::One);
    work.phase = phase;
    let steps = run(work, &mut parts)?;
    let entries = parts.structures.structure(StructNo::One).entries().len();
    let set = parts.datasets.set(Member::One, StructNo::One);
    Some((steps, entries, set.used(epoch)))
}

/// Whether each of three members has a cleaning to do, before and after one of the first.
fn to_do(alloc: Global) -> Option<([bool; 3], [bool; 3])> {
    let mut parts = parts(alloc, EPOCH)?;
    let before = all_to_do(&parts);
    run(CleaningWork::begin(Member::One, StructNo::One), &mut parts)?;
    Some((before, all_to_do(&parts)))
}

fn all_to_do(parts: &Parts<MemDisk>) -> [bool; 3] {
    [
        has_cleaning(parts, Member::One),
        first_to_clean(parts, Member::Two) == Some(StructNo::One),
        has_cleaning(parts, Member::Three),
    ]
}

#[test]
fn a_removed_entry_goes_and_its_blocks_are_free(rt: HostRuntime) {
    let alloc = rt.alloc();
    assert_eq!(rt; cleaned(alloc, EPOCH, Phase::Connect), Some((3, 2, 1)));
    assert_eq!(rt;
        to_do(alloc),
        Some(([true, true, false], [false, true, false]))
    );
}

#[test]
fn blocks_of_a_map_of_another_epoch_stay(rt: HostRuntime) {
    let alloc = rt.alloc();
    assert_eq!(rt; cleaned(alloc, 7, Phase::Connect), Some((3, 2, 3)));
}

#[test]
fn a_structure_that_was_lost_ends_a_cleaning(rt: HostRuntime) {
    let alloc = rt.alloc();
    let earlier = Phase::Search { epoch: EPOCH + 1 };
    assert_eq!(rt; cleaned(alloc, EPOCH, earlier), Some((1, 3, 3)));
}
