//! A rig that makes devices in memory.

ghost use Rattle.std.specs.Prelude.{◌≡◌, ◌<◌, ◌≤◌, ◌+◌, ◌-◌, ◌^◌, ◌↔◌, min, true, false, length, replicate, Option, Some, None, IfOk, OnOk, [], ◌∷◌, ◌++◌, IsErrOf, IsTrue, option_copied, if◌then◌else◌};
ghost use Rattle.qsg_num.specs.Faults.{Rose};
ghost use Rattle.qsg_disk_mem.specs.declared.places.TheConstants.{PLACES};
ghost use Rattle.qsg_disk_mem.specs.FailingCalls.{calls_for};
ghost use Rattle.qsg_num.specs.declared.seats.Member.{Member};
ghost use Rattle.qsg_disk.specs.declared.kinds.Kind.{Kind};
ghost use Rattle.qsg_disk.specs.declared.rig.RigError.TheVariants as error;
ghost use Rattle.qsg_disk.specs.Places.{is_place};
ghost use Rattle.qsg_disk_mem.specs.Calls.{is_listed};

use crate::mem::MemDisk;
use crate::places::{PLACES, place_of};
use qsg_disk::{Disk, Kind, Rig, RigError};
use qsg_num::{Failed, Member};
use std::alloc::{AllocError, Global};

/// Makes devices in memory and keeps those that were given back. The calls of `device` are counted from 1; the
/// count stays at 2^32 - 1, after which no call fails.
#[derive(Drop)]
pub struct MemRig {
    failing: Vec<(Member, Kind, u32)>,
    refuse: Vec<u32>,
    calls: u32,
    faults: u64,
    given: Vec<Option<MemDisk>>,
    ghost places: { length given.items ≡ PLACES },
}

/// Places with no device.
fn no_devices(alloc: Global) -> Result<Vec<Option<MemDisk>>, AllocError>
    ensures { IfOk result (λ v. v.items ≡ replicate PLACES None) }
{
    let mut given = Vec::with_capacity(alloc, PLACES)?;
    for _turn in 0..PLACES {
        given.push(None)?;
    }
    Ok(given)
}

/// Whether two places are one.
fn same_place(member: Member, kind: Kind, m: Member, k: Kind) -> bool
    ensures { result ≡ is_place member kind m k }
{
    place_of(m, k) == place_of(member, kind)
}

/// Adds the number of a failing call, if it is one of this device.
fn add_call(
    calls: &mut Vec<u32>,
    entry: &(Member, Kind, u32),
    member: Member,
    kind: Kind,
) -> Result<(), AllocError>
    ensures { OnOk result (calls.new.items ≡ calls.old.items ++ calls_for member kind (entry.now ∷ [])) }
{
    if same_place(member, kind, entry.0, entry.1) {
        calls.push(entry.2)?;
    }
    Ok(())
}

/// The numbers of the failing calls of one device, of a list for all.
fn calls_for(
    alloc: Global,
    failing: &[(Member, Kind, u32)],
    member: Member,
    kind: Kind,
) -> Result<Vec<u32>, AllocError>
    ensures { IfOk result (λ v. v.items ≡ calls_for member kind failing.now) }
{
    let mut calls = Vec::new(alloc);
    for entry in failing {
        add_call(&mut calls, entry, member, kind)?;
    }
    Ok(calls)
}

impl MemRig {
    ghost use Rattle.qsg_disk_mem.specs.Rig.{given_in, failing_for, rig_calls, is_refusing, SameLists};

    /// A rig that was given nothing back. `failing` hands failing calls to devices; `refuse` names the calls of
    /// `device` that fail.
    pub fn new(
        alloc: Global,
        failing: Vec<(Member, Kind, u32)>,
        refuse: Vec<u32>,
    ) -> Result<MemRig, AllocError>
        ensures given { IfOk result (λ rig. (m : Member) (k : Kind) → given_in rig m k ≡ None) }
        ensures failing { IfOk result (λ rig. (m : Member) (k : Kind) → failing_for m k rig ≡ calls_for m k failing.items) }
        ensures refuse { IfOk result (λ rig. is_refusing rig ≡ is_listed refuse.items 0) }
    {
        let given = no_devices(alloc)?;
        Ok(MemRig {
            failing,
            refuse,
            calls: 0,
            faults: 0,
            given,
        })
    }

    /// The device last given back for a member and a kind; None exactly where none was.
    pub fn device_of(&self, member: Member, kind: Kind) -> Option<&MemDisk>
        ensures { option_copied result ≡ given_in self.now member kind }
    {
        self.given[place_of(member, kind)].as_ref()
    }

    /// Counts a call of `device`, and tells whether it fails.
    fn refuses(&mut self) -> bool
        ensures given { self.new.given ≡ self.old.given }
        ensures lists { SameLists self.old self.new }
        ensures later { self.old.faults ≤ self.new.faults }
        ensures rose { IsTrue result → Rose self.old.faults self.new.faults }
        ensures counted { self.new.calls ≡ min (self.old.calls + 1) (2 ^ 32 - 1) }
        ensures listed { result ≡ is_refusing self.old }
    {
        if self.calls == u32::MAX {
            return false;
        }
        self.calls += 1;
        if self.refuse.contains(&self.calls) {
            self.faults = self.faults.saturating_add(1);
            return true;
        }
        false
    }
}

impl Rig for MemRig {
    ghost use Rattle.std.specs.Prelude.{replicate, is_err};
    ghost use Rattle.qsg_disk.specs.Byte.{zero_byte};
    ghost use Rattle.qsg_disk_mem.specs.Mem.{IsNew};
    ghost use Rattle.qsg_disk_mem.specs.Rig.{given_in, failing_for, rig_calls, is_refusing, SameLists};

    type D = MemDisk;

    ghost tells = { λ rig. true };

    ghost given = { given_in };

    ghost faults = { λ rig. rig.faults };

    fn device(
        &mut self,
        alloc: Global,
        member: Member,
        kind: Kind,
        size: u32,
    ) -> Result<MemDisk, RigError>
        ensures told { ⟦<MemRig as Rig>⟧.tells self.new ≡ ⟦<MemRig as Rig>⟧.tells self.old }
        ensures given { ⟦<MemRig as Rig>⟧.tells self.old ≡ true → (m : Member) (k : Kind) → ⟦<MemRig as Rig>⟧.given self.new m k ≡ ⟦<MemRig as Rig>⟧.given self.old m k }
        ensures later { ⟦<MemRig as Rig>⟧.faults self.old ≤ ⟦<MemRig as Rig>⟧.faults self.new }
        ensures cause { IsErrOf result error.Failed → Rose (⟦<MemRig as Rig>⟧.faults self.old) (⟦<MemRig as Rig>⟧.faults self.new) }
        ensures size { IfOk result (λ d. ⟦<MemDisk as Disk>⟧.extent d ≡ size) }
        ensures zeros { IfOk result (λ d. ⟦<MemDisk as Disk>⟧.tells d ≡ true → ⟦<MemDisk as Disk>⟧.bytes d ≡ replicate size zero_byte) }
        ensures telling { IfOk result (λ d. ⟦<MemRig as Rig>⟧.tells self.old ≡ true → ⟦<MemDisk as Disk>⟧.tells d ≡ true) }
        ensures fails { IsErrOf result error.Failed ↔ (is_refusing self.old ≡ true) }
        ensures counted { rig_calls self.new ≡ min (rig_calls self.old + 1) (2 ^ 32 - 1) }
        ensures lists { SameLists self.old self.new }
        ensures made { IfOk result (IsNew size (failing_for member kind self.old)) }
    {
        if self.refuses() {
            return Err(Failed.into());
        }
        let failing = calls_for(alloc, &self.failing, member, kind)?;
        Ok(MemDisk::new(alloc, size, failing)?)
    }

    fn give_back(&mut self, member: Member, kind: Kind, device: MemDisk) {
        let place = place_of(member, kind);
        self.given[place] = Some(device);
    }
}
