//! Devices that tell nothing, for tests.

ghost use Rattle.std.specs.Prelude.{◌≡◌, ◌<◌, ◌≤◌, ◌+◌, ◌%◌, ◌^◌, ℕ, true, false, length, IfOk, IsErrOf, IfSome, [], slice_index};
ghost use Rattle.std.specs.Option.{ForSome};
ghost use Rattle.qsg_num.specs.Faults.{HasCause, Rose};
ghost use Rattle.qsg_num.specs.declared.seats.Member.{Member};
ghost use Rattle.qsg_disk.specs.declared.kinds.Kind.{Kind};
ghost use Rattle.qsg_disk.specs.declared.rig.RigError.TheVariants as error;
ghost use Rattle.qsg_disk.specs.Byte.{zero_byte};

use crate::mem::MemDisk;
use qsg_disk::{Disk, Failed, Kind, Rig, RigError};
use qsg_num::{Bytes, Member};
use std::alloc::{AllocError, Global};

/// A device in memory without failing calls, that tells no bytes. That of a log reads as one page again and
/// again, whatever was written: at each offset a it gives the byte a mod 4,096 of the page.
#[derive(Drop)]
pub struct BlindDisk {
    disk: MemDisk,
    page: Option<Bytes>,
    ghost whole_page: { ForSome page (λ p. length p ≡ 4096) },
}

/// Fills a buffer with the bytes of a page from an offset on, again and again.
fn repeat(page: &[u8], at: u32, into: &mut [u8])
    requires { length page.now ≡ 4096 }
    ensures length { length into.new ≡ length into.old }
    ensures bytes { (k : ℕ) → k < length into.old → slice_index into.new k ≡ slice_index page.now ((at + k) % 4096) }
{
    let at = at as usize;
    for i in 0..into.len() {
        into[i] = page[(at + i) % 4096];
    }
}

impl Disk for BlindDisk {
    ghost use Rattle.std.specs.Prelude.{◌≡◌, ◌+◌, ◌%◌, ◌<◌, ◌≤◌, ℕ, List, length, map, false, true, [], OnOk, slice_index};
    ghost use Rattle.std.proofs.Common.{rules};
    ghost use Rattle.qsg_disk.specs.Byte.{values, part};
    ghost use Rattle.qsg_disk_mem.specs.Blind.{page_in};
    ghost use Rattle.qsg_disk_mem.specs.Mem.{cells_in};
    ghost use Rattle.qsg_disk_mem.specs.Cells.{now_of};

    ghost tells = { λ blind. false };

    ghost bytes = { λ blind. [] };

    ghost extent = { λ blind. length (cells_in blind.disk) };

    ghost faults = { λ blind. ⟦<MemDisk as Disk>⟧.faults blind.disk };

    ghost whole = { λ blind told. Prim.search rules };

    ghost small = { λ blind. blind.disk.small };

    fn size(&self) -> u32 {
        self.disk.size()
    }

    fn read(&mut self, at: u32, into: &mut [u8]) -> Result<(), Failed>
        requires { at + length into.old ≤ ⟦<BlindDisk as Disk>⟧.extent self.old }
        ensures told { ⟦<BlindDisk as Disk>⟧.tells self.new ≡ ⟦<BlindDisk as Disk>⟧.tells self.old }
        ensures extent { ⟦<BlindDisk as Disk>⟧.extent self.new ≡ ⟦<BlindDisk as Disk>⟧.extent self.old }
        ensures cause { HasCause (⟦<BlindDisk as Disk>⟧.faults self.old) (⟦<BlindDisk as Disk>⟧.faults self.new) result }
        ensures bytes { ⟦<BlindDisk as Disk>⟧.tells self.old ≡ true → ⟦<BlindDisk as Disk>⟧.bytes self.new ≡ ⟦<BlindDisk as Disk>⟧.bytes self.old }
        ensures read { OnOk result (⟦<BlindDisk as Disk>⟧.tells self.old ≡ true → into.new ≡ values (part at (length into.old) (⟦<BlindDisk as Disk>⟧.bytes self.old))) }
        ensures page { OnOk result (IfSome (page_in self.old) (λ page. (k : ℕ) → k < length into.old → slice_index into.new k ≡ slice_index page ((at + k) % 4096))) }
    {
        self.disk.read(at, into)?;
        if let Some(page) = &self.page {
            repeat(page.as_slice(), at, into);
        }
        Ok(())
    }

    fn write(&mut self, at: u32, from: &[u8]) -> Result<(), Failed> {
        self.disk.write(at, from)
    }

    fn sync(&mut self) -> Result<(), Failed> {
        self.disk.sync()
    }

    fn power_cut(&mut self, pick: u64, at: u32) -> u8 {
        self.disk.power_cut(pick, at)
    }
}

/// Makes devices that tell nothing, and tells nothing of what it is given back. It never fails.
#[derive(Drop)]
pub struct BlindRig {
    page: Bytes,
    ghost whole_page: { length page ≡ 4096 },
}

impl BlindRig {
    ghost use Rattle.qsg_disk_mem.specs.Blind.{rig_page, page_for};

    /// A rig whose log devices read as this page again and again.
    pub fn new(page: Bytes) -> BlindRig
        requires { length page ≡ 4096 }
        ensures { rig_page result ≡ page }
    {
        BlindRig { page }
    }

    /// The page of a log's device; a data set has none.
    fn page_for(&self, alloc: Global, kind: Kind) -> Result<Option<Bytes>, AllocError>
        ensures { IfOk result (λ page. page ≡ page_for self.now kind) }
    {
        match kind {
            Kind::Log => Ok(Some(Bytes::from_slice(alloc, self.page.as_slice())?)),
            Kind::DataSet(_) => Ok(None),
        }
    }
}

impl Rig for BlindRig {
    ghost use Rattle.std.specs.Prelude.{replicate, None, true, false};
    ghost use Rattle.qsg_disk_mem.specs.Blind.{page_in, page_for};

    type D = BlindDisk;

    ghost tells = { λ rig. false };

    ghost given = { λ rig m k. None };

    ghost faults = { λ rig. 0 };

    fn device(
        &mut self,
        alloc: Global,
        member: Member,
        kind: Kind,
        size: u32,
    ) -> Result<BlindDisk, RigError>
        ensures told { ⟦<BlindRig as Rig>⟧.tells self.new ≡ ⟦<BlindRig as Rig>⟧.tells self.old }
        ensures given { ⟦<BlindRig as Rig>⟧.tells self.old ≡ true → (m : Member) (k : Kind) → ⟦<BlindRig as Rig>⟧.given self.new m k ≡ ⟦<BlindRig as Rig>⟧.given self.old m k }
        ensures later { ⟦<BlindRig as Rig>⟧.faults self.old ≤ ⟦<BlindRig as Rig>⟧.faults self.new }
        ensures cause { IsErrOf result error.Failed → Rose (⟦<BlindRig as Rig>⟧.faults self.old) (⟦<BlindRig as Rig>⟧.faults self.new) }
        ensures size { IfOk result (λ d. ⟦<BlindDisk as Disk>⟧.extent d ≡ size) }
        ensures zeros { IfOk result (λ d. ⟦<BlindDisk as Disk>⟧.tells d ≡ true → ⟦<BlindDisk as Disk>⟧.bytes d ≡ replicate size zero_byte) }
        ensures telling { IfOk result (λ d. ⟦<BlindRig as Rig>⟧.tells self.old ≡ true → ⟦<BlindDisk as Disk>⟧.tells d ≡ true) }
        ensures page { IfOk result (λ d. page_in d ≡ page_for self.old kind) }
        ensures same { self.new ≡ self.old }
    {
        let _ = member;
        let page = self.page_for(alloc, kind)?;
        let disk = MemDisk::new(alloc, size, Vec::new(alloc))?;
        Ok(BlindDisk { disk, page })
    }

    fn give_back(&mut self, member: Member, kind: Kind, device: BlindDisk) {
        let _ = (member, kind, device);
    }
}
