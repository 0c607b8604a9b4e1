//! A small data set, with each call of it, and those of a group.

ghost use Rattle.std.specs.Prelude.{◌≡◌, length, IfSome, OnOk, OnErr};
ghost use Rattle.qsg_num.specs.declared.seats.Member.TheVariants as member;
ghost use Rattle.qsg_num.specs.declared.seats.StructNo.TheVariants as structures;
ghost use Rattle.qsg_num.specs.declared.seats.TaskNo.TheVariants as task;
ghost use Rattle.qsg_disk_mem.specs.Mem.{cells_in};
ghost use Rattle.qsg_datasets.specs.Kept.{HasSet, set_in, with_set, taken};

use super::*;
use qsg_dataset::DataSet;
use qsg_disk_mem::MemDisk;
use qsg_num::{Block, Blocks, Member, StructNo, TaskNo};
use qsg_space::{NoRoom, TakeError};
use std::alloc::Global;
use std::test::Fail;

const EPOCH: u32 = 3;

/// Room for a header and four blocks of 512 bytes.
fn device(alloc: Global) -> Option<MemDisk>
    ensures { IfSome result (λ device. length (cells_in device) ≡ 6144) }
{
    MemDisk::new(alloc, 6_144, Vec::new(alloc)).ok()
}

fn data_set(alloc: Global) -> Option<DataSet<MemDisk>>
    ensures { IfSome result (λ s. (s.block_size ≡ 512) × (s.blocks ≡ 4)) }
{
    let device = device(alloc)?;
    Some(DataSet::new(device, 512))
}

/// Four blocks of 512 bytes, in a data set that was never used.
fn four(alloc: Global) -> Option<MemberDataSet<MemDisk>>
    ensures { IfSome result (λ s. (s.contents.block_size ≡ 512) × (s.contents.blocks ≡ 4)) }
{
    let data_set = data_set(alloc)?;
    MemberDataSet::new(alloc, data_set).ok()
}

/// The numbers of the blocks that a task has taken.
fn taken<'a>(set: &'a MemberDataSet<MemDisk>, task: TaskNo) -> &'a [Block] {
    set.hand(task).blocks.as_slice()
}

/// Blocks are taken for tasks, lowest first, and given back.
#[test]
fn tasks_take_blocks(rt: HostRuntime) -> Result<(), Fail> {
    let alloc = rt.alloc();
    let Some(mut set) = four(alloc) else {
        assert!(rt; false);
        return Ok(());
    };
    assert_eq!(rt;
        set.take(alloc, TaskNo::One, EPOCH, 5),
        Err(TakeError::NoRoom(NoRoom { need: 5, free: 4 }))
    );
    assert!(rt; !set.stands(EPOCH));
    assert_eq!(rt; set.take(alloc, TaskNo::One, EPOCH, 2), Ok(()));
    assert_eq!(rt; set.take(alloc, TaskNo::Two, EPOCH, 1), Ok(()));
    assert_eq!(rt;
        taken(&set, TaskNo::One),
        [Block { number: 0 }, Block { number: 1 }].as_slice()
    );
    assert_eq!(rt; taken(&set, TaskNo::Two), [Block { number: 2 }].as_slice());
    assert_eq!(rt; set.used(EPOCH), 3);
    assert_eq!(rt;
        set.take(alloc, TaskNo::Three, EPOCH, 2),
        Err(TakeError::NoRoom(NoRoom { need: 2, free: 1 }))
    );
    set.give_back(alloc, TaskNo::One);
    assert!(rt; taken(&set, TaskNo::One).is_empty());
    assert_eq!(rt; set.used(EPOCH), 1);
    let listed = set.exchange(
        TaskNo::Two,
        Hand {
            epoch: 0,
            blocks: Blocks::from_vec(Vec::new(alloc)),
        },
    );
    assert_eq!(rt; set.used(EPOCH), 1);
    set.free(EPOCH + 1, &listed.blocks);
    assert_eq!(rt; set.used(EPOCH), 1);
    set.free(listed.epoch, &listed.blocks);
    assert_eq!(rt; set.used(EPOCH), 0);
    Ok(())
}

/// In a later epoch all blocks are free, and what an earlier one took stays in its hand and not in the map.
#[test]
fn a_later_epoch_has_a_map_of_its_own(rt: HostRuntime) -> Result<(), Fail> {
    let alloc = rt.alloc();
    let Some(mut set) = four(alloc) else {
        assert!(rt; false);
        return Ok(());
    };
    assert_eq!(rt; set.take(alloc, TaskNo::One, EPOCH, 3), Ok(()));
    assert_eq!(rt; set.used(EPOCH + 1), 0);
    assert_eq!(rt; set.take(alloc, TaskNo::Two, EPOCH + 1, 4), Ok(()));
    assert!(rt; !set.stands(EPOCH));
    assert_eq!(rt; set.used(EPOCH + 1), 4);
    set.give_back(alloc, TaskNo::One);
    assert_eq!(rt; set.used(EPOCH + 1), 4);
    set.clear(alloc);
    assert_eq!(rt; set.used(EPOCH + 1), 0);
    assert!(rt; taken(&set, TaskNo::Two).is_empty());
    Ok(())
}

/// A map is saved, loaded for its epoch alone, and lost by a cut that comes before the gate is shut and after.
#[test]
fn a_map_is_saved_and_loaded(rt: HostRuntime) -> Result<(), Fail> {
    let alloc = rt.alloc();
    let Some(mut set) = four(alloc) else {
        assert!(rt; false);
        return Ok(());
    };
    let blank = Found {
        has_map: false,
        gate_open: false,
    };
    assert_eq!(rt; set.load(alloc, EPOCH), Ok(blank));
    assert_eq!(rt; set.take(alloc, TaskNo::One, EPOCH, 3), Ok(()));
    for step in 1..5 {
        assert!(rt; save(&mut set, step));
    }
    set.cut(alloc, 7);
    assert!(rt; !set.stands(EPOCH));
    assert!(rt; taken(&set, TaskNo::One).is_empty());
    let older = Found {
        has_map: false,
        gate_open: true,
    };
    assert_eq!(rt; set.load(alloc, EPOCH + 1), Ok(older));
    assert_eq!(rt; set.used(EPOCH + 1), 0);
    let saved = Found {
        has_map: true,
        gate_open: true,
    };
    assert_eq!(rt; set.load(alloc, EPOCH), Ok(saved));
    assert_eq!(rt; set.used(EPOCH), 3);
    assert!(rt; set.shut_step(1).is_ok());
    assert!(rt; set.shut_step(2).is_ok());
    set.cut(alloc, 7);
    assert_eq!(rt; set.load(alloc, EPOCH), Ok(blank));
    Ok(())
}

/// Whether a step that saves the map succeeds.
fn save(set: &mut MemberDataSet<MemDisk>, step: u8) -> bool {
    if set.stands(EPOCH) && 1 <= step && step <= 4 {
        return set.save_step(step).is_ok();
    }
    false
}

/// A body is read as it was written, and its blocks are claimed in a new map.
#[test]
fn bodies_are_written(rt: HostRuntime) -> Result<(), Fail> {
    let alloc = rt.alloc();
    let Some(mut set) = four(alloc) else {
        assert!(rt; false);
        return Ok(());
    };
    let block = Block { number: 3 };
    assert!(rt; set.write_block(block, b"body").is_ok());
    assert!(rt; set.sync().is_ok());
    let mut read = [0; 5];
    assert!(rt; set.read_block(block, &mut read).is_ok());
    assert_eq!(rt; read, *b"body\0");
    let blocks = Blocks::from_slice(alloc, &[block, Block { number: 1 }])?;
    set.claim(&blocks);
    assert_eq!(rt; set.used(EPOCH), 0);
    assert!(rt; set.load(alloc, EPOCH).is_ok());
    set.claim(&blocks);
    assert_eq!(rt; set.used(EPOCH), 2);
    Ok(())
}

/// Of one member, those for two structures.
fn one_member(alloc: Global) -> Option<DataSets<MemDisk>>
    ensures first { IfSome result (HasSet member.One structures.One) }
    ensures second { IfSome result (HasSet member.One structures.Two) }
{
    let mut sets = Vec::new(alloc);
    sets.push(four(alloc)?).ok()?;
    sets.push(four(alloc)?).ok()?;
    let mut members = Vec::new(alloc);
    members.push(MemberDataSets::from_vec(sets)).ok()?;
    Some(DataSets::from_vec(members))
}

/// A call changes one data set alone, and a cut changes all of a member.
#[test]
fn members_have_data_sets(rt: HostRuntime) -> Result<(), Fail> {
    let alloc = rt.alloc();
    let Some(mut sets) = one_member(alloc) else {
        assert!(rt; false);
        return Ok(());
    };
    assert_eq!(rt; take(alloc, &mut sets, StructNo::One, 2), Ok(()));
    assert_eq!(rt; used(&sets), [2, 0]);
    assert_eq!(rt; take(alloc, &mut sets, StructNo::Two, 4), Ok(()));
    assert_eq!(rt; used(&sets), [2, 4]);
    sets.cut(alloc, Member::One, 7);
    assert_eq!(rt; used(&sets), [0, 0]);
    Ok(())
}

/// A call on one data set, through the whole of them.
fn take(
    alloc: Global,
    sets: &mut DataSets<MemDisk>,
    structure: StructNo,
    n: u32,
) -> Result<(), TakeError>
    requires { HasSet member.One structure sets.old }
    ensures taken { OnOk result (sets.new ≡ with_set member.One structure (taken task.One EPOCH n (set_in member.One structure sets.old)) sets.old) }
    ensures unchanged { OnErr result (sets.new ≡ sets.old) }
{
    let set = sets.set_mut(Member::One, structure);
    set.take(alloc, TaskNo::One, EPOCH, n)
}

/// Used blocks of both data sets.
fn used(sets: &DataSets<MemDisk>) -> [u32; 2]
    requires first { HasSet member.One structures.One sets.now }
    requires second { HasSet member.One structures.Two sets.now }
{
    [
        sets.set(Member::One, StructNo::One).used(EPOCH),
        sets.set(Member::One, StructNo::Two).used(EPOCH),
    ]
}
