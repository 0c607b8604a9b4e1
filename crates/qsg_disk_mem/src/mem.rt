//! A device in memory.

ghost use Rattle.std.specs.Prelude.{◌≡◌, ◌<◌, ◌≤◌, ◌+◌, ◌-◌, ◌^◌, min, true, length, IfOk, IsTrue, List};
ghost use Rattle.qsg_num.specs.Faults.{HasCause, Rose};
ghost use Rattle.qsg_disk_mem.specs.Calls.{is_listed};

use crate::cells::Cells;
use qsg_disk::{Disk, Failed};
use std::alloc::{AllocError, Global};

/// A device of bytes in memory. Its calls of read, write and sync are counted together from 1, and those whose
/// numbers are listed fail. The count stays at 2^32 - 1, after which no call fails.
///
/// It takes about 2.13 bytes of memory a byte, all in `new`. A write takes time by its bytes, and a sync or a
/// power cut by the span of what was written since the last one, whatever the size of the device.
#[derive(Drop)]
pub struct MemDisk {
    cells: Cells,
    failing: Vec<u32>,
    calls: u32,
    faults: u64,
    ghost small: { length cells < 2 ^ 32 },
}

impl MemDisk {
    ghost use Rattle.qsg_disk_mem.specs.Mem.{IsNew, cells_in};

    /// A device of `size` zeros, all safe, whose calls of these numbers fail.
    pub fn new(alloc: Global, size: u32, failing: Vec<u32>) -> Result<MemDisk, AllocError>
        ensures { IfOk result (IsNew size failing.items) }
    {
        let cells = Cells::new(alloc, size)?;
        Ok(MemDisk {
            cells,
            failing,
            calls: 0,
            faults: 0,
        })
    }

    /// Counts a call, and tells whether it fails.
    fn fails(&mut self) -> bool
        ensures cells { self.new.cells ≡ self.old.cells }
        ensures failing { self.new.failing ≡ self.old.failing }
        ensures later { self.old.faults ≤ self.new.faults }
        ensures rose { IsTrue result → Rose self.old.faults self.new.faults }
        ensures counted { self.new.calls ≡ min (self.old.calls + 1) (2 ^ 32 - 1) }
        ensures listed { result ≡ is_listed self.old.failing.items self.old.calls }
    {
        if self.calls == u32::MAX {
            return false;
        }
        self.calls += 1;
        if self.failing.contains(&self.calls) {
            self.faults = self.faults.saturating_add(1);
            return true;
        }
        false
    }
}

impl Disk for MemDisk {
    ghost use Rattle.std.specs.Prelude.{slice_index, map, OnOk, is_err, if◌then◌else◌, replicate};
    ghost use Rattle.qsg_disk.specs.Byte.{values, part, written, synced, AreUnsafe, Beside, EachPair, IsKeptOrSynced, IsCut};
    ghost use Rattle.qsg_disk_mem.specs.Cells.{all_cut, settled};
    ghost use Rattle.qsg_disk_mem.specs.Mem.{bytes_in, cells_in, calls_of, failing_of, is_failing, IsCounted, IsWritten};
    ghost use Rattle.std.proofs.lemmas.List.{length-map};

    ghost tells = { λ disk. true };

    ghost bytes = { bytes_in };

    ghost extent = { λ disk. length disk.cells };

    ghost faults = { λ disk. disk.faults };

    ghost whole = { λ disk told. length-map disk.cells _ };

    ghost small = { λ disk. disk.small };

    fn size(&self) -> u32 {
        self.cells.len()
    }

    fn read(&mut self, at: u32, into: &mut [u8]) -> Result<(), Failed>
        requires { at + length into.old ≤ ⟦<MemDisk as Disk>⟧.extent self.old }
        ensures told { ⟦<MemDisk as Disk>⟧.tells self.new ≡ ⟦<MemDisk as Disk>⟧.tells self.old }
        ensures extent { ⟦<MemDisk as Disk>⟧.extent self.new ≡ ⟦<MemDisk as Disk>⟧.extent self.old }
        ensures cause { HasCause (⟦<MemDisk as Disk>⟧.faults self.old) (⟦<MemDisk as Disk>⟧.faults self.new) result }
        ensures bytes { ⟦<MemDisk as Disk>⟧.tells self.old ≡ true → ⟦<MemDisk as Disk>⟧.bytes self.new ≡ ⟦<MemDisk as Disk>⟧.bytes self.old }
        ensures read { OnOk result (⟦<MemDisk as Disk>⟧.tells self.old ≡ true → into.new ≡ values (part at (length into.old) (⟦<MemDisk as Disk>⟧.bytes self.old))) }
        ensures fails { is_err result ≡ is_failing self.old }
        ensures counted { IsCounted self.old self.new }
        ensures cells { cells_in self.new ≡ cells_in self.old }
    {
        if self.fails() {
            return Err(Failed);
        }
        self.cells.read(at as usize, into);
        Ok(())
    }

    fn write(&mut self, at: u32, from: &[u8]) -> Result<(), Failed>
        requires { at + length from.now ≤ ⟦<MemDisk as Disk>⟧.extent self.old }
        ensures told { ⟦<MemDisk as Disk>⟧.tells self.new ≡ ⟦<MemDisk as Disk>⟧.tells self.old }
        ensures extent { ⟦<MemDisk as Disk>⟧.extent self.new ≡ ⟦<MemDisk as Disk>⟧.extent self.old }
        ensures cause { HasCause (⟦<MemDisk as Disk>⟧.faults self.old) (⟦<MemDisk as Disk>⟧.faults self.new) result }
        ensures beside { ⟦<MemDisk as Disk>⟧.tells self.old ≡ true → Beside at (length from.now) (⟦<MemDisk as Disk>⟧.bytes self.old) (⟦<MemDisk as Disk>⟧.bytes self.new) }
        ensures torn { ⟦<MemDisk as Disk>⟧.tells self.old ≡ true → AreUnsafe (part at (length from.now) (⟦<MemDisk as Disk>⟧.bytes self.new)) }
        ensures written { OnOk result (⟦<MemDisk as Disk>⟧.tells self.old ≡ true → part at (length from.now) (⟦<MemDisk as Disk>⟧.bytes self.new) ≡ map written from.now) }
        ensures fails { is_err result ≡ is_failing self.old }
        ensures counted { IsCounted self.old self.new }
        ensures exact { IsWritten at from.now self.old self.new }
    {
        if self.fails() {
            self.cells.put_into_doubt(at as usize, from.len());
            return Err(Failed);
        }
        self.cells.write(at as usize, from);
        Ok(())
    }

    fn sync(&mut self) -> Result<(), Failed>
        ensures told { ⟦<MemDisk as Disk>⟧.tells self.new ≡ ⟦<MemDisk as Disk>⟧.tells self.old }
        ensures extent { ⟦<MemDisk as Disk>⟧.extent self.new ≡ ⟦<MemDisk as Disk>⟧.extent self.old }
        ensures cause { HasCause (⟦<MemDisk as Disk>⟧.faults self.old) (⟦<MemDisk as Disk>⟧.faults self.new) result }
        ensures kept { ⟦<MemDisk as Disk>⟧.tells self.old ≡ true → EachPair IsKeptOrSynced (⟦<MemDisk as Disk>⟧.bytes self.old) (⟦<MemDisk as Disk>⟧.bytes self.new) }
        ensures synced { OnOk result (⟦<MemDisk as Disk>⟧.tells self.old ≡ true → ⟦<MemDisk as Disk>⟧.bytes self.new ≡ map synced (⟦<MemDisk as Disk>⟧.bytes self.old)) }
        ensures fails { is_err result ≡ is_failing self.old }
        ensures counted { IsCounted self.old self.new }
        ensures exact { cells_in self.new ≡ (if is_failing self.old then cells_in self.old else map settled (cells_in self.old)) }
    {
        if self.fails() {
            return Err(Failed);
        }
        self.cells.settle();
        Ok(())
    }

    fn power_cut(&mut self, pick: u64, at: u32) -> u8
        requires { at < ⟦<MemDisk as Disk>⟧.extent self.old }
        ensures told { ⟦<MemDisk as Disk>⟧.tells self.new ≡ ⟦<MemDisk as Disk>⟧.tells self.old }
        ensures extent { ⟦<MemDisk as Disk>⟧.extent self.new ≡ ⟦<MemDisk as Disk>⟧.extent self.old }
        ensures faults { ⟦<MemDisk as Disk>⟧.faults self.old ≤ ⟦<MemDisk as Disk>⟧.faults self.new }
        ensures cut { ⟦<MemDisk as Disk>⟧.tells self.old ≡ true → EachPair IsCut (⟦<MemDisk as Disk>⟧.bytes self.old) (⟦<MemDisk as Disk>⟧.bytes self.new) }
        ensures answer { ⟦<MemDisk as Disk>⟧.tells self.old ≡ true → result ≡ slice_index (values (⟦<MemDisk as Disk>⟧.bytes self.new)) at }
        ensures exact { cells_in self.new ≡ all_cut pick 0 (cells_in self.old) }
        ensures calls { calls_of self.new ≡ calls_of self.old }
        ensures failing { failing_of self.new ≡ failing_of self.old }
    {
        self.cells.cut(pick);
        self.cells.value(at as usize)
    }
}
