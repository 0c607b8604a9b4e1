//! Rebuilds over a device in memory: from entries, from a saved map, and over calls that fail.

ghost use Rattle.std.specs.Prelude.{◌≡◌, ◌<◌, ◌≤◌, ◌+◌, ◌*◌, ◌^◌, true, length, [], ◌∷◌, IfSome};
ghost use Rattle.std.specs.List.{AllByRecursion};
ghost use Rattle.qsg_num.specs.declared.ids.Block.{Block as BlockSeen};
ghost use Rattle.qsg_num.specs.declared.seats.Member.TheVariants as members;
ghost use Rattle.qsg_num.specs.declared.seats.StructNo.TheVariants as structures;
ghost use Rattle.qsg_disk_mem.specs.Mem.{cells_in};
ghost use Rattle.qsg_datasets.specs.Kept.{HasSet};
ghost use Rattle.qsg_parts.specs.Owned.{owned};
ghost use Rattle.qsg_rebuild.specs.Needs.{IsWithin, AreWithin, MayStep};
ghost use Rattle.qsg_rebuild.specs.Steps.{new_work};

use crate::{RebuildError, RebuildTurn, RebuildWork};
use qsg_dataset::DataSet;
use qsg_datasets::{DataSets, MemberDataSet, MemberDataSets};
use qsg_disk::Disk;
use qsg_disk_mem::MemDisk;
use qsg_lists::{Connection, Entry, Head, Mark, Place, Selector, Structure};
use qsg_logs::Logs;
use qsg_manager::{Managers, Structures};
use qsg_model::History;
use qsg_num::{
    Block, Blocks, Delivery, EntryId, Incarnation, InlineBody, Member, Name, Priority, QueueName,
    StructNo, TaskNo, UnitName,
};
use qsg_objects::Objects;
use qsg_parts::Parts;
use qsg_repo::Repo;
use std::alloc::Global;
use std::test::*;

const UNIT: UnitName = UnitName {
    member: Member::Two,
    incarnation: Incarnation { number: 1 },
    seq: 1,
};

const ANY: Selector = Selector {
    msg_id: None,
    correl_id: None,
};

const NOW: Connection = Connection {
    structure: StructNo::One,
    epoch: 0,
};

/// Ten blocks of 512 bytes behind the header.
const EXTENT: u32 = 9_216;

// ---- a data set

/// A data set of ten blocks on a device.
fn over(alloc: Global, device: MemDisk) -> Option<MemberDataSet<MemDisk>>
    requires { length (cells_in device) ≡ 9216 }
{
    MemberDataSet::new(alloc, DataSet::new(device, 512)).ok()
}

/// A data set of ten blocks, whose device fails in these calls.
fn data_set(alloc: Global, failing: &[u32]) -> Option<MemberDataSet<MemDisk>> {
    let calls = Vec::from_slice(alloc, failing).ok()?;
    let device = MemDisk::new(alloc, EXTENT, calls).ok()?;
    if device.size() != EXTENT {
        return None;
    }
    over(alloc, device)
}

/// One behind whose open gate stands what isn't a map.
fn garbled(alloc: Global) -> Option<MemberDataSet<MemDisk>> {
    let mut device = MemDisk::new(alloc, EXTENT, Vec::new(alloc)).ok()?;
    if device.size() != EXTENT {
        return None;
    }
    device.write(0, &[7; 32]).ok()?;
    device.sync().ok()?;
    if device.size() != EXTENT {
        return None;
    }
    over(alloc, device)
}

/// One in which a map is saved for epoch 0, by which the first three blocks are used.
fn saved(alloc: Global, failing: &[u32]) -> Option<MemberDataSet<MemDisk>> {
    let mut set = data_set(alloc, failing)?;
    set.take(alloc, TaskNo::One, 0, 3).ok()?;
    for at in 1..5u8 {
        set.save_step(at).ok()?;
    }
    set.clear(alloc);
    Some(set)
}

/// The numbers of the blocks that are free in the map of an epoch, where one stands for it.
fn free(alloc: Global, set: &mut MemberDataSet<MemDisk>, epoch: u32) -> Option<Vec<u32>> {
    if !set.stands(epoch) {
        return None;
    }
    let used = set.used(epoch);
    if set.blocks() < used {
        return None;
    }
    let count = set.blocks() - used;
    set.take(alloc, TaskNo::System, epoch, count).ok()?;
    let mut numbers = Vec::new(alloc);
    for block in set.hand(TaskNo::System).blocks.as_slice() {
        numbers.push(block.number).ok()?;
    }
    Some(numbers)
}

// ---- a structure

fn head(alloc: Global) -> Option<Head> {
    let name = Name::from_str(alloc, "Q1").ok()?;
    Some(Head {
        queue: QueueName::from_name(name).ok()?,
        priority: Priority::Zero,
        persistent: true,
        msg_id: [0; 24],
        correl_id: [0; 24],
    })
}

/// A body of this owner in these blocks.
fn outside(alloc: Global, owner: Member, numbers: &[u32]) -> Option<Place> {
    let mut blocks = Vec::new(alloc);
    for number in numbers {
        blocks.push(Block { number: *number }).ok()?;
    }
    Some(Place::Offloaded {
        owner,
        blocks: Blocks::from_vec(blocks),
        length: 600,
    })
}

/// What becomes of an entry after it was written.
#[derive(Clone, Copy)]
enum Fate {
    Open,
    Committed,
    Got,
    Removed,
}

/// A structure with an entry more.
fn with_entry(
    alloc: Global,
    mut structure: Structure,
    place: Place,
    fate: Fate,
) -> Option<Structure>
    requires { structure.last < 100 }
    ensures { IfSome result (λ s. s.last ≤ structure.last + 1) }
{
    let head = head(alloc)?;
    let Ok(id) = structure.write_entry(NOW, UNIT, head, place, 10) else {
        return None;
    };
    match fate {
        Fate::Open => {}
        Fate::Committed => {
            let _ = structure.settle(NOW, id, UNIT, true);
        }
        Fate::Got => {
            let _ = structure.settle(NOW, id, UNIT, true);
            let _ = structure.take(NOW, UNIT, "Q1", Delivery::Fifo, &ANY);
        }
        Fate::Removed => {
            let _ = structure.settle(NOW, id, UNIT, false);
        }
    }
    Some(structure)
}

fn empty(alloc: Global) -> Structure
    ensures last { result.last ≡ 0 }
    ensures epoch { result.epoch ≡ 0 }
{
    Structure::new(alloc, StructNo::One, 100)
}

/// Entries of two owners, with each mark.
fn filled(alloc: Global) -> Option<Structure> {
    let inside = Place::Inline(InlineBody::from_slice(alloc, b"a").ok()?);
    let structure = with_entry(alloc, empty(alloc), inside, Fate::Committed)?;
    let got = outside(alloc, Member::One, &[5])?;
    let structure = with_entry(alloc, structure, got, Fate::Got)?;
    let visible = outside(alloc, Member::One, &[1, 0])?;
    let structure = with_entry(alloc, structure, visible, Fate::Committed)?;
    let other = outside(alloc, Member::Two, &[2, 4])?;
    let structure = with_entry(alloc, structure, other, Fate::Committed)?;
    let open = outside(alloc, Member::One, &[3])?;
    let structure = with_entry(alloc, structure, open, Fate::Open)?;
    let removed = outside(alloc, Member::One, &[9])?;
    with_entry(alloc, structure, removed, Fate::Removed)
}

/// A structure that was lost.
fn lost(alloc: Global) -> Option<Structure> {
    let mut structure = empty(alloc);
    structure.lose().ok()?;
    Some(structure)
}

/// One that serves its users again, in epoch 1.
fn recovered(alloc: Global) -> Option<Structure> {
    let mut structure = lost(alloc)?;
    let live = [None; 8];
    structure
        .begin_recover(Member::Two, UNIT.incarnation, &live)
        .ok()?;
    structure.end_recover(0);
    Some(structure)
}

// ---- a group

fn are_below(blocks: &[Block], count: u32) -> bool
    ensures { result ≡ true → AllByRecursion (λ (b : BlockSeen). b.number < count) blocks.now }
{
    match blocks {
        [] => true,
        [block, others @ ..] => block.number < count && are_below(others, count),
    }
}

fn is_within(place: &Place, count: u32) -> bool
    ensures { result ≡ true → IsWithin members.One count place.now }
{
    match place {
        Place::Inline(_) => true,
        Place::Offloaded { blocks, .. } => are_below(blocks.as_slice(), count),
    }
}

fn are_within(entries: &[Entry], count: u32) -> bool
    ensures { result ≡ true → AreWithin members.One count entries.now }
{
    match entries {
        [] => true,
        [entry, others @ ..] => is_within(&entry.place, count) && are_within(others, count),
    }
}

fn one_structure(alloc: Global, structure: Structure) -> Option<Structures>
    ensures { IfSome result (λ s. s ≡ structure ∷ []) }
{
    let mut items = Vec::new(alloc);
    items.push(structure).ok()?;
    Some(Structures::from_vec(items))
}

fn one_set(alloc: Global, set: MemberDataSet<MemDisk>) -> Option<DataSets<MemDisk>>
    ensures { IfSome result (λ s. s ≡ (set ∷ []) ∷ []) }
{
    let mut row = Vec::new(alloc);
    row.push(set).ok()?;
    let mut rows = Vec::new(alloc);
    rows.push(MemberDataSets::from_vec(row)).ok()?;
    Some(DataSets::from_vec(rows))
}

/// A group of a member with this data set, which is down, and of this structure.
fn parts(alloc: Global, structure: Structure, set: MemberDataSet<MemDisk>) -> Option<Parts<MemDisk>>
    ensures { IfSome result (λ p. MayStep (new_work members.One structures.One) (owned p)) }
{
    if !are_within(structure.entries(), set.blocks()) {
        return None;
    }
    Some(Parts {
        structures: one_structure(alloc, structure)?,
        managers: Managers::from_vec(Vec::new(alloc)),
        logs: Logs::from_vec(Vec::new(alloc)),
        datasets: one_set(alloc, set)?,
        repo: Repo::new(alloc, 1, 1, [true; 4], 2).ok()?,
        objects: Objects::new(alloc),
        history: History::new(alloc),
    })
}

/// How a rebuild of that data set ended, and after how many steps.
type Ending = (Result<RebuildTurn, RebuildError>, u32);

const DONE: Result<RebuildTurn, RebuildError> = Ok(RebuildTurn::Done);

const FAILED: Result<RebuildTurn, RebuildError> = Err(RebuildError::Failed);

fn ending(alloc: Global, parts: &mut Parts<MemDisk>) -> Ending
    requires { MayStep (new_work members.One structures.One) (owned parts.old) }
    ensures { HasSet members.One structures.One (owned parts.new).datasets }
{
    let mut work = RebuildWork::begin(Member::One, StructNo::One);
    for step in 1..20u32 {
        match work.step(alloc, parts) {
            Ok(RebuildTurn::More) => {}
            ended => return (ended, step),
        }
    }
    (Ok(RebuildTurn::More), 20)
}

/// How it ended, and the blocks that are free in the map of an epoch then.
fn ended(
    alloc: Global,
    structure: Option<Structure>,
    set: Option<MemberDataSet<MemDisk>>,
    epoch: u32,
) -> Option<(Ending, Option<Vec<u32>>)> {
    let mut parts = parts(alloc, structure?, set?)?;
    let ending = ending(alloc, &mut parts);
    let set = parts.datasets.set_mut(Member::One, StructNo::One);
    Some((ending, free(alloc, set, epoch)))
}

/// Whether a rebuild ends so, with these blocks free.
fn ends(found: Option<(Ending, Option<Vec<u32>>)>, ending: Ending, free: Option<&[u32]>) -> bool {
    match found {
        Some((how, Some(numbers))) => how == ending && free == Some(numbers.as_slice()),
        Some((how, None)) => how == ending && free.is_none(),
        None => false,
    }
}

#[test]
fn maps_are_made_from_entries(rt: HostRuntime) {
    let alloc = rt.alloc();
    let all = [0, 1, 2, 3, 4, 5, 6, 7, 8, 9];
    // One step connects, one reads the header, one finds no entry, and one makes the gate safe.
    let found = ended(alloc, Some(empty(alloc)), data_set(alloc, &[]), 0);
    assert!(rt; ends(found, (DONE, 4), Some(&all)));
    let found = ended(alloc, filled(alloc), data_set(alloc, &[]), 0);
    assert!(rt; ends(found, (DONE, 10), Some(&[2, 4, 6, 7, 8])));
    // What isn't a map is none; the gate is written then.
    let found = ended(alloc, filled(alloc), garbled(alloc), 0);
    assert!(rt; ends(found, (DONE, 11), Some(&[2, 4, 6, 7, 8])));
    // Nor is a map of an older epoch.
    let found = ended(alloc, recovered(alloc), saved(alloc, &[]), 1);
    assert!(rt; ends(found, (DONE, 5), Some(&all)));
}

#[test]
fn a_saved_map_is_loaded(rt: HostRuntime) {
    let alloc = rt.alloc();
    let found = ended(alloc, Some(empty(alloc)), saved(alloc, &[]), 0);
    assert!(rt; ends(found, (DONE, 4), Some(&[3, 4, 5, 6, 7, 8, 9])));
}

#[test]
fn no_map_is_kept_of_a_lost_structure(rt: HostRuntime) {
    let alloc = rt.alloc();
    let found = ended(alloc, lost(alloc), data_set(alloc, &[]), 1);
    assert!(rt; ends(found, (DONE, 3), None));
    // Nor where it is saved.
    let found = ended(alloc, lost(alloc), saved(alloc, &[]), 1);
    assert!(rt; ends(found, (DONE, 4), None));
}

#[test]
fn a_call_that_fails_ends_the_rebuild(rt: HostRuntime) {
    let alloc = rt.alloc();
    let found = ended(alloc, filled(alloc), data_set(alloc, &[1]), 0);
    assert!(rt; ends(found, (FAILED, 2), None));
    let found = ended(alloc, Some(empty(alloc)), data_set(alloc, &[2]), 0);
    assert!(rt; ends(found, (FAILED, 4), Some(&[0, 1, 2, 3, 4, 5, 6, 7, 8, 9])));
    // A map is saved by four calls.
    let found = ended(alloc, Some(empty(alloc)), saved(alloc, &[6]), 0);
    assert!(rt; ends(found, (FAILED, 3), Some(&[3, 4, 5, 6, 7, 8, 9])));
}
