//! The devices of the members, made by a rig.

ghost use Rattle.std.specs.Prelude.{◌≡◌, ◌<◌, ◌≤◌, ◌+◌, ◌*◌, true, List, [], length, replicate, IfOk, OnOk, OnErr, IsErrOf, IsSome};
ghost use Rattle.std.specs.List.{AllByRecursion};
ghost use Rattle.qsg_num.specs.Faults.{Rose};
ghost use Rattle.qsg_num.specs.declared.seats.Member.{Member};
ghost use Rattle.qsg_num.specs.declared.seats.StructNo.{StructNo};
ghost use Rattle.qsg_num.specs.Seats.{member_number, structure_number};
ghost use Rattle.qsg_disk.specs.declared.kinds.Kind.{Kind};
ghost use Rattle.qsg_disk.specs.declared.kinds.Kind.TheVariants as kind;
ghost use Rattle.qsg_disk.specs.Places.{kind_number};
ghost use Rattle.qsg_disk.specs.Byte.{zero_byte};
ghost use Rattle.qsg_devices.specs.declared.making.MakeFault.TheVariants as fault;
ghost use Rattle.qsg_devices.specs.DataSets.{IsNewSet, AreNewSets, AreNewRows, IsOneMoreSet, IsOneMoreRow};
ghost use Rattle.qsg_devices.specs.Places.{IsDeviceOf, IsEarlier, IsStopped};
ghost use Rattle.qsg_devices.specs.Logs.{IsLogSized, IsNewLog, AreNewLogs, IsOneMoreLog};
ghost use Rattle.qsg_devices.specs.Shapes.{IsSetSized};

use crate::returning::{give_back, give_back_row};
use crate::shapes::Shape;
use qsg_dataset::DataSet;
use qsg_datasets::{DataSets, Hands, MemberDataSet, MemberDataSets};
use qsg_disk::{Disk, Kind, Rig, RigError};
use qsg_logs::{Logs, MemberLog};
use qsg_num::{DATA_SET_HEADER, Member, PAGE_BYTES, StructNo};
use qsg_objects::MemberDef;
use std::alloc::{AllocError, Global};

/// Why a group wasn't made. Every device that was made is given back.
#[derive(Clone, Copy, Debug, PartialEq, Eq)]
pub enum MakeFault {
    /// There was no memory.
    NoMemory,
    /// The rig failed to make this device, and its count of faults rose.
    Rig(Member, Kind),
}

impl From<AllocError> for MakeFault {
    ghost from_gives = { λ _ e. e ≡ fault.NoMemory };

    fn from(_: AllocError) -> Self {
        MakeFault::NoMemory
    }
}

/// The devices of a group.
#[derive(Drop)]
pub struct Devices<D: Disk> {
    pub logs: Logs<D>,
    pub datasets: DataSets<D>,
}

/// Those of its first members, as far as they are made.
#[derive(Drop)]
struct Made<D: Disk> {
    logs: Vec<MemberLog<D>>,
    rows: Vec<MemberDataSets<D>>,
}

/// A new device of so many bytes.
fn new_device<D: Disk + Drop, R: Rig<D = D>>(
    alloc: Global,
    rig: &mut R,
    member: Member,
    kind: Kind,
    size: u32,
) -> Result<D, MakeFault>
    ensures size { IfOk result (λ d. D.extent d ≡ size) }
    ensures zeros { IfOk result (λ d. D.tells d ≡ true → D.bytes d ≡ replicate size zero_byte) }
    ensures place { (m : Member) (k : Kind) → IsErrOf result (fault.Rig m k) → (m ≡ member) × (k ≡ kind) }
    ensures cause { (m : Member) (k : Kind) → IsErrOf result (fault.Rig m k) → Rose (R.faults rig.old) (R.faults rig.new) }
    ensures later { R.faults rig.old ≤ R.faults rig.new }
    ensures told { R.tells rig.new ≡ R.tells rig.old }
{
    match rig.device(alloc, member, kind, size) {
        Ok(device) => Ok(device),
        Err(RigError::NoMemory) => Err(MakeFault::NoMemory),
        Err(RigError::Failed) => Err(MakeFault::Rig(member, kind)),
    }
}

/// The log of a member, of so many pages, on a new device.
fn new_log<D: Disk + Drop, R: Rig<D = D>>(
    alloc: Global,
    rig: &mut R,
    member: Member,
    pages: u32,
) -> Result<MemberLog<D>, MakeFault>
    requires some { 0 < pages }
    requires few { pages ≤ 8192 }
    ensures new { IfOk result (IsNewLog pages) }
    ensures place { (m : Member) (k : Kind) → IsErrOf result (fault.Rig m k) → (m ≡ member) × (k ≡ kind.Log) }
    ensures cause { (m : Member) (k : Kind) → IsErrOf result (fault.Rig m k) → Rose (R.faults rig.old) (R.faults rig.new) }
    ensures later { R.faults rig.old ≤ R.faults rig.new }
    ensures told { R.tells rig.new ≡ R.tells rig.old }
{
    let device = new_device(alloc, rig, member, Kind::Log, pages * PAGE_BYTES)?;
    Ok(MemberLog::new(device, pages))
}

/// Adds the log of the next member.
fn add_log<D: Disk + Drop, R: Rig<D = D>>(
    alloc: Global,
    rig: &mut R,
    logs: &mut Vec<MemberLog<D>>,
    pages: u32,
) -> Result<(), MakeFault>
    requires some { 0 < pages }
    requires few { pages ≤ 8192 }
    requires place { length logs.old.items < 8 }
    ensures added { OnOk result (IsOneMoreLog pages logs.old.items logs.new.items) }
    ensures unchanged { OnErr result (logs.new.items ≡ logs.old.items) }
    ensures place { (m : Member) (k : Kind) → IsErrOf result (fault.Rig m k) → (member_number m ≡ length logs.new.items + 1) × (k ≡ kind.Log) }
    ensures cause { (m : Member) (k : Kind) → IsErrOf result (fault.Rig m k) → Rose (R.faults rig.old) (R.faults rig.new) }
    ensures later { R.faults rig.old ≤ R.faults rig.new }
    ensures told { R.tells rig.new ≡ R.tells rig.old }
{
    let number = logs.len() as u8 + 1;
    let Some(member) = Member::new(number) else {
        return Ok(());
    };
    let log = new_log(alloc, rig, member, pages)?;
    if let Err(refused) = logs.push(log) {
        rig.give_back(member, Kind::Log, refused.value.into_device());
        return Err(MakeFault::NoMemory);
    }
    Ok(())
}

/// The data set of a member for a structure, on a new device.
fn new_set<D: Disk + Drop, R: Rig<D = D>>(
    alloc: Global,
    rig: &mut R,
    member: Member,
    structure: StructNo,
    shape: Shape,
) -> Result<MemberDataSet<D>, MakeFault>
    requires sized { IsSetSized shape }
    ensures new { IfOk result (IsNewSet shape) }
    ensures place { (m : Member) (k : Kind) → IsErrOf result (fault.Rig m k) → (m ≡ member) × (k ≡ kind.DataSet structure) }
    ensures cause { (m : Member) (k : Kind) → IsErrOf result (fault.Rig m k) → Rose (R.faults rig.old) (R.faults rig.new) }
    ensures later { R.faults rig.old ≤ R.faults rig.new }
    ensures told { R.tells rig.new ≡ R.tells rig.old }
{
    let hands = Hands::new(alloc)?;
    let size = DATA_SET_HEADER + shape.blocks * shape.block_size;
    let device = new_device(alloc, rig, member, Kind::DataSet(structure), size)?;
    let data_set = DataSet::new(device, shape.block_size);
    Ok(MemberDataSet::with_hands(data_set, hands))
}

/// Adds the data set of a member for the next structure.
fn add_set<D: Disk + Drop, R: Rig<D = D>>(
    alloc: Global,
    rig: &mut R,
    member: Member,
    sets: &mut Vec<MemberDataSet<D>>,
    shape: Shape,
) -> Result<(), MakeFault>
    requires sized { IsSetSized shape }
    requires place { length sets.old.items < 4 }
    ensures added { OnOk result (IsOneMoreSet shape sets.old.items sets.new.items) }
    ensures unchanged { OnErr result (sets.new.items ≡ sets.old.items) }
    ensures place { (m : Member) (k : Kind) → IsErrOf result (fault.Rig m k) → (m ≡ member) × (kind_number k ≡ length sets.new.items + 1) }
    ensures cause { (m : Member) (k : Kind) → IsErrOf result (fault.Rig m k) → Rose (R.faults rig.old) (R.faults rig.new) }
    ensures later { R.faults rig.old ≤ R.faults rig.new }
    ensures told { R.tells rig.new ≡ R.tells rig.old }
{
    let number = sets.len() as u8 + 1;
    let Some(structure) = StructNo::new(number) else {
        return Ok(());
    };
    let set = new_set(alloc, rig, member, structure, shape)?;
    if let Err(refused) = sets.push(set) {
        let device = refused.value.into_data_set().into_device();
        rig.give_back(member, Kind::DataSet(structure), device);
        return Err(MakeFault::NoMemory);
    }
    Ok(())
}

/// Adds the data sets of a member.
fn add_sets<D: Disk + Drop, R: Rig<D = D>>(
    alloc: Global,
    rig: &mut R,
    member: Member,
    sets: &mut Vec<MemberDataSet<D>>,
    shapes: &[Shape],
) -> Result<(), MakeFault>
    requires none { sets.old.items ≡ [] }
    requires four { length shapes.now ≤ 4 }
    requires sized { AllByRecursion IsSetSized shapes.now }
    ensures new { OnOk result (AreNewSets shapes.now sets.new.items) }
    ensures few { length sets.new.items ≤ length shapes.now }
    ensures place { (m : Member) (k : Kind) → IsErrOf result (fault.Rig m k) → (m ≡ member) × (kind_number k ≡ length sets.new.items + 1) × (kind_number k ≤ length shapes.now) }
    ensures cause { (m : Member) (k : Kind) → IsErrOf result (fault.Rig m k) → Rose (R.faults rig.old) (R.faults rig.new) }
    ensures later { R.faults rig.old ≤ R.faults rig.new }
    ensures told { R.tells rig.new ≡ R.tells rig.old }
{
    for shape in shapes {
        add_set(alloc, rig, member, sets, *shape)?;
    }
    Ok(())
}

/// The data sets of a member, each on a new device.
fn new_row<D: Disk + Drop, R: Rig<D = D>>(
    alloc: Global,
    rig: &mut R,
    member: Member,
    shapes: &[Shape],
) -> Result<MemberDataSets<D>, MakeFault>
    requires four { length shapes.now ≤ 4 }
    requires sized { AllByRecursion IsSetSized shapes.now }
    ensures new { IfOk result (AreNewSets shapes.now) }
    ensures place { (m : Member) (k : Kind) → IsErrOf result (fault.Rig m k) → (m ≡ member) × (1 ≤ kind_number k) × (kind_number k ≤ length shapes.now) }
    ensures back { R.tells rig.old ≡ true → (m : Member) (k : Kind) → IsErrOf result (fault.Rig m k) → (s : StructNo) → structure_number s < kind_number k → IsSome (R.given rig.new m (kind.DataSet s)) }
    ensures cause { (m : Member) (k : Kind) → IsErrOf result (fault.Rig m k) → Rose (R.faults rig.old) (R.faults rig.new) }
    ensures later { R.faults rig.old ≤ R.faults rig.new }
    ensures told { R.tells rig.new ≡ R.tells rig.old }
{
    let mut sets = Vec::with_capacity(alloc, shapes.len())?;
    let made = add_sets(alloc, rig, member, &mut sets, shapes);
    let row = MemberDataSets::from_vec(sets);
    if let Err(fault) = made {
        give_back_row(rig, member, row);
        return Err(fault);
    }
    Ok(row)
}

/// Adds the data sets of the next member.
fn add_row<D: Disk + Drop, R: Rig<D = D>>(
    alloc: Global,
    rig: &mut R,
    rows: &mut Vec<MemberDataSets<D>>,
    shapes: &[Shape],
) -> Result<(), MakeFault>
    requires four { length shapes.now ≤ 4 }
    requires sized { AllByRecursion IsSetSized shapes.now }
    requires place { length rows.old.items < 8 }
    ensures added { OnOk result (IsOneMoreRow shapes.now rows.old.items rows.new.items) }
    ensures unchanged { OnErr result (rows.new.items ≡ rows.old.items) }
    ensures place { (m : Member) (k : Kind) → IsErrOf result (fault.Rig m k) → (member_number m ≡ length rows.new.items + 1) × (1 ≤ kind_number k) × (kind_number k ≤ length shapes.now) }
    ensures back { R.tells rig.old ≡ true → (m : Member) (k : Kind) → IsErrOf result (fault.Rig m k) → (s : StructNo) → structure_number s < kind_number k → IsSome (R.given rig.new m (kind.DataSet s)) }
    ensures cause { (m : Member) (k : Kind) → IsErrOf result (fault.Rig m k) → Rose (R.faults rig.old) (R.faults rig.new) }
    ensures later { R.faults rig.old ≤ R.faults rig.new }
    ensures told { R.tells rig.new ≡ R.tells rig.old }
{
    let number = rows.len() as u8 + 1;
    let Some(member) = Member::new(number) else {
        return Ok(());
    };
    let row = new_row(alloc, rig, member, shapes)?;
    if let Err(refused) = rows.push(row) {
        give_back_row(rig, member, refused.value);
        return Err(MakeFault::NoMemory);
    }
    Ok(())
}

/// Adds the devices of the next member: its log, and then its data sets.
fn add_member<D: Disk + Drop, R: Rig<D = D>>(
    alloc: Global,
    rig: &mut R,
    made: &mut Made<D>,
    pages: u32,
    shapes: &[Shape],
) -> Result<(), MakeFault>
    requires some { 0 < pages }
    requires few { pages ≤ 8192 }
    requires four { length shapes.now ≤ 4 }
    requires sized { AllByRecursion IsSetSized shapes.now }
    requires each { length made.old.logs.items ≡ length made.old.rows.items }
    requires place { length made.old.rows.items < 8 }
    ensures log { OnOk result (IsOneMoreLog pages made.old.logs.items made.new.logs.items) }
    ensures row { OnOk result (IsOneMoreRow shapes.now made.old.rows.items made.new.rows.items) }
    ensures logs { OnErr result (length made.new.logs.items ≤ length made.old.logs.items + 1) }
    ensures rows { OnErr result (made.new.rows.items ≡ made.old.rows.items) }
    ensures stopped { (m : Member) (k : Kind) → IsErrOf result (fault.Rig m k) → IsStopped (length shapes.now) m k made.new.logs.items made.new.rows.items }
    ensures back { R.tells rig.old ≡ true → (m : Member) (k : Kind) → IsErrOf result (fault.Rig m k) → (s : StructNo) → structure_number s < kind_number k → IsSome (R.given rig.new m (kind.DataSet s)) }
    ensures cause { (m : Member) (k : Kind) → IsErrOf result (fault.Rig m k) → Rose (R.faults rig.old) (R.faults rig.new) }
    ensures later { R.faults rig.old ≤ R.faults rig.new }
    ensures told { R.tells rig.new ≡ R.tells rig.old }
{
    add_log(alloc, rig, &mut made.logs, pages)?;
    add_row(alloc, rig, &mut made.rows, shapes)
}

/// Adds those of these members.
fn add_members<D: Disk + Drop, R: Rig<D = D>>(
    alloc: Global,
    rig: &mut R,
    made: &mut Made<D>,
    members: &[MemberDef],
    shapes: &[Shape],
) -> Result<(), MakeFault>
    requires no_logs { made.old.logs.items ≡ [] }
    requires no_rows { made.old.rows.items ≡ [] }
    requires few { length members.now ≤ 8 }
    requires logs { AllByRecursion IsLogSized members.now }
    requires four { length shapes.now ≤ 4 }
    requires sized { AllByRecursion IsSetSized shapes.now }
    ensures logs { OnOk result (AreNewLogs members.now made.new.logs.items) }
    ensures rows { OnOk result (length made.new.rows.items ≡ length members.now) }
    ensures few_logs { length made.new.logs.items ≤ 8 }
    ensures few_rows { length made.new.rows.items ≤ length members.now }
    ensures each { AllByRecursion (AreNewSets shapes.now) made.new.rows.items }
    ensures place { OnErr result (length made.new.rows.items < length members.now) }
    ensures stopped { (m : Member) (k : Kind) → IsErrOf result (fault.Rig m k) → IsStopped (length shapes.now) m k made.new.logs.items made.new.rows.items }
    ensures back { R.tells rig.old ≡ true → (m : Member) (k : Kind) → IsErrOf result (fault.Rig m k) → (s : StructNo) → structure_number s < kind_number k → IsSome (R.given rig.new m (kind.DataSet s)) }
    ensures cause { (m : Member) (k : Kind) → IsErrOf result (fault.Rig m k) → Rose (R.faults rig.old) (R.faults rig.new) }
    ensures later { R.faults rig.old ≤ R.faults rig.new }
    ensures told { R.tells rig.new ≡ R.tells rig.old }
{
    for member in members {
        add_member(alloc, rig, made, member.log_pages, shapes)?;
    }
    Ok(())
}

/// The devices of the members, all new, made in the order of the members, of each its log first, and then its data sets
/// in order of the structures. Where one isn't made, those before it are given back.
pub fn new_devices<D: Disk + Drop, R: Rig<D = D>>(
    alloc: Global,
    rig: &mut R,
    members: &[MemberDef],
    shapes: &[Shape],
) -> Result<Devices<D>, MakeFault>
    requires few { length members.now ≤ 8 }
    requires logs { AllByRecursion IsLogSized members.now }
    requires four { length shapes.now ≤ 4 }
    requires sized { AllByRecursion IsSetSized shapes.now }
    ensures logs { IfOk result (λ d. AreNewLogs members.now d.logs) }
    ensures datasets { IfOk result (λ d. AreNewRows (length members.now) shapes.now d.datasets) }
    ensures place { (m : Member) (k : Kind) → IsErrOf result (fault.Rig m k) → IsDeviceOf (length members.now) (length shapes.now) m k }
    ensures back { R.tells rig.old ≡ true → (m : Member) (k : Kind) → IsErrOf result (fault.Rig m k) → (n : Member) (l : Kind) → kind_number l ≤ length shapes.now → IsEarlier n l m k → IsSome (R.given rig.new n l) }
    ensures cause { (m : Member) (k : Kind) → IsErrOf result (fault.Rig m k) → Rose (R.faults rig.old) (R.faults rig.new) }
    ensures later { R.faults rig.old ≤ R.faults rig.new }
    ensures told { R.tells rig.new ≡ R.tells rig.old }
{
    let mut made = Made {
        logs: Vec::with_capacity(alloc, members.len())?,
        rows: Vec::with_capacity(alloc, members.len())?,
    };
    let all = add_members(alloc, rig, &mut made, members, shapes);
    let Made { logs, rows } = made;
    let logs = Logs::from_vec(logs);
    let datasets = DataSets::from_vec(rows);
    if let Err(fault) = all {
        give_back(rig, logs, datasets);
        return Err(fault);
    }
    Ok(Devices { logs, datasets })
}
