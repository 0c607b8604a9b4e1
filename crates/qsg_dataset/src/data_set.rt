//! A data set and its calls.

ghost use Rattle.std.specs.Prelude.{◌≡◌, ◌≢◌, ℕ, ◌+◌, ◌*◌, ◌^◌, ◌<◌, ◌≤◌, ◌==◌, not, Bool, true, List, [], ◌∷◌, length, slice_index, OnOk, IfOk, IfSome, IfNone, IsErrOf, Option};
ghost use Rattle.qsg_num.specs.Faults.{HasCause, Rose};
ghost use Rattle.qsg_disk.specs.Byte.{values, EachPair, IsCut};
ghost use Rattle.qsg_dataset.specs.Headers.{spelling};
ghost use Rattle.qsg_dataset.specs.Contents.{HasBlocks, IsSized, IsSame, extent_of, offset_of, block_bytes, header_of, gate_value, IsSaved};
ghost use Rattle.qsg_dataset.specs.Steps.{Writes, Syncs, SaveStep, ShutStep};
ghost use Rattle.qsg_dataset.specs.declared.data_set.LoadError.TheVariants as error;

use crate::header::{saved_map, spell};
use qsg_disk::Disk;
use qsg_num::{Block, DATA_SET_HEADER, Failed};
use qsg_space::Map;
use std::alloc::{AllocError, Global};
use std::marker::Model;

/// The gate of a header that holds no saved map.
const SHUT: u8 = 0;

/// The gate of a header that holds one.
const OPEN: u8 = 1;

/// A member's data set for the offloaded bodies of a structure: a header of 4,096 bytes, in which the map of its used
/// blocks is saved while its owner is down, and 1 to 8,192 blocks of one size on a device.
///
/// Each call but `new` and `into_device` is one device call. It fails only where the device's count of faults rose.
/// Only `load_map` takes memory.
#[derive(Drop)]
pub struct DataSet<D: Disk> {
    device: D,
    block_size: u32,
    blocks: u32,
}

impl<D: Disk> Model for DataSet<D> {
    ghost use Rattle.qsg_dataset.specs.Contents.{Contents, IsSized};

    ghost Value = { Contents };

    ghost view = { λ s. record { tells = D.tells s.device; bytes = D.bytes s.device; faults = D.faults s.device; block_size = s.block_size; blocks = s.blocks } };

    ghost invariant = { λ s. IsSized (D.extent s.device) s.block_size s.blocks };
}

/// What a header holds.
#[derive(Debug, Drop)]
pub struct Loaded {
    /// The map that was saved for the epoch, if one was.
    pub map: Option<Map>,
    /// Whether the gate isn't 0.
    pub gate_open: bool,
}

/// Why a header isn't read.
#[derive(Clone, Copy, Debug, PartialEq, Eq)]
pub enum LoadError {
    /// The device failed, and its count of faults rose.
    Failed,
    /// There was no memory for the map.
    NoMemory,
}

impl From<AllocError> for LoadError {
    ghost from_gives = { λ _ e. e ≡ error.NoMemory };

    fn from(_: AllocError) -> Self {
        LoadError::NoMemory
    }
}

impl From<Failed> for LoadError {
    ghost from_gives = { λ _ e. e ≡ error.Failed };

    fn from(_: Failed) -> Self {
        LoadError::Failed
    }
}

impl<D: Disk> DataSet<D> {
    /// The data set of blocks of this many bytes on a device, which has room for the header and for 1 to 8,192 of
    /// them, and for nothing besides. Takes no memory.
    pub fn new(device: D, block_size: u32) -> Self
        requires { HasBlocks (D.extent device) block_size }
        ensures tells { result.tells ≡ D.tells device }
        ensures bytes { result.bytes ≡ D.bytes device }
        ensures faults { result.faults ≡ D.faults device }
        ensures block_size { result.block_size ≡ block_size }
        ensures blocks { (n : ℕ) → IsSized (D.extent device) block_size n → result.blocks ≡ n }
    {
        let blocks = (device.size() - DATA_SET_HEADER) / block_size;
        DataSet {
            device,
            block_size,
            blocks,
        }
    }

    /// Its device. Takes no memory.
    pub fn into_device(self) -> D
        ensures tells { D.tells result ≡ self.tells }
        ensures bytes { D.bytes result ≡ self.bytes }
        ensures faults { D.faults result ≡ self.faults }
        ensures extent { D.extent result ≡ extent_of self }
    {
        self.device
    }

    /// What every data set keeps: it has 1 to 8,192 blocks of at least a byte, and they fit on a device.
    pub fn kept(&self)
        ensures sized { IsSized (extent_of self.now) self.now.block_size self.now.blocks }
        ensures small { extent_of self.now < 2 ^ 32 }
        ensures whole { self.now.tells ≡ true → length self.now.bytes ≡ extent_of self.now }
    {
        let _size = self.device.size();
    }

    /// How many blocks there are.
    pub fn blocks(&self) -> u32
        ensures { result ≡ self.now.blocks }
    {
        self.blocks
    }

    /// Bytes of a block.
    pub fn block_size(&self) -> u32
        ensures { result ≡ self.now.block_size }
    {
        self.block_size
    }

    /// Where a block begins.
    fn offset(&self, block: Block) -> u32
        requires { block.number < self.now.blocks }
        ensures value { result ≡ offset_of self.now block.number }
        ensures bound { result + self.now.block_size ≤ extent_of self.now }
    {
        let _size = self.device.size();
        DATA_SET_HEADER + block.number * self.block_size
    }

    /// Writes the first bytes of a block, at most all of it. Nothing else changes, and what is written isn't safe
    /// before a sync.
    pub fn write_block(&mut self, block: Block, bytes: &[u8]) -> Result<(), Failed>
        requires block { block.number < self.old.blocks }
        requires length { length bytes.now ≤ self.old.block_size }
        ensures same { IsSame self.old self.new }
        ensures cause { HasCause self.old.faults self.new.faults result }
        ensures write { self.old.tells ≡ true → Writes (offset_of self.old block.number) bytes.now result self.old.bytes self.new.bytes }
        ensures reads { OnOk result (self.old.tells ≡ true → values (block_bytes self.new block.number (length bytes.now)) ≡ bytes.now) }
        ensures others { self.old.tells ≡ true → (k n : ℕ) → k ≢ block.number → n ≤ self.old.block_size → block_bytes self.new k n ≡ block_bytes self.old k n }
        ensures header { self.old.tells ≡ true → header_of self.new.bytes ≡ header_of self.old.bytes }
    {
        let at = self.offset(block);
        self.device.write(at, bytes)
    }

    /// Reads the first bytes of a block, at most all of it. No byte of the data set changes.
    pub fn read_block(&mut self, block: Block, into: &mut [u8]) -> Result<(), Failed>
        requires block { block.number < self.old.blocks }
        requires length { length into.old ≤ self.old.block_size }
        ensures same { IsSame self.old self.new }
        ensures cause { HasCause self.old.faults self.new.faults result }
        ensures bytes { self.old.tells ≡ true → self.new.bytes ≡ self.old.bytes }
        ensures read { OnOk result (self.old.tells ≡ true → into.new ≡ values (block_bytes self.old block.number (length into.old))) }
    {
        let at = self.offset(block);
        self.device.read(at, into)
    }

    /// Makes every byte safe. No value changes.
    pub fn sync(&mut self) -> Result<(), Failed>
        ensures same { IsSame self.old self.new }
        ensures cause { HasCause self.old.faults self.new.faults result }
        ensures sync { self.old.tells ≡ true → Syncs result self.old.bytes self.new.bytes }
    {
        self.device.sync()
    }

    /// Does one of the four calls that save a map for an epoch: 1 writes the map behind the gate, 2 syncs, 3 opens the
    /// gate, 4 syncs. The map has as many blocks as the data set.
    pub fn save_step(&mut self, map: &Map, epoch: u32, at: u8) -> Result<(), Failed>
        requires step { (1 ≤ at) × (at ≤ 4) }
        requires blocks { length map.now ≡ self.old.blocks }
        ensures same { IsSame self.old self.new }
        ensures cause { HasCause self.old.faults self.new.faults result }
        ensures step { self.old.tells ≡ true → SaveStep at epoch map.now result self.old.bytes self.new.bytes }
    {
        match at {
            1 => self.write_map(map, epoch),
            3 => self.write_gate(OPEN),
            _ => self.sync(),
        }
    }

    fn write_map(&mut self, map: &Map, epoch: u32) -> Result<(), Failed>
        requires { length map.now ≡ self.old.blocks }
        ensures same { IsSame self.old self.new }
        ensures cause { HasCause self.old.faults self.new.faults result }
        ensures write { self.old.tells ≡ true → Writes 1 (spelling epoch map.now) result self.old.bytes self.new.bytes }
    {
        let _size = self.device.size();
        let rest = spell(map, epoch);
        self.device.write(1, &rest)
    }

    fn write_gate(&mut self, gate: u8) -> Result<(), Failed>
        ensures same { IsSame self.old self.new }
        ensures cause { HasCause self.old.faults self.new.faults result }
        ensures write { self.old.tells ≡ true → Writes 0 (gate ∷ []) result self.old.bytes self.new.bytes }
    {
        let _size = self.device.size();
        self.device.write(0, &[gate])
    }

    /// Does one of the two calls that shut the gate: 1 writes it, 2 syncs.
    pub fn shut_step(&mut self, at: u8) -> Result<(), Failed>
        requires { (1 ≤ at) × (at ≤ 2) }
        ensures same { IsSame self.old self.new }
        ensures cause { HasCause self.old.faults self.new.faults result }
        ensures step { self.old.tells ≡ true → ShutStep at result self.old.bytes self.new.bytes }
    {
        match at {
            1 => self.write_gate(SHUT),
            _ => self.sync(),
        }
    }

    /// Reads the header. The map is None exactly where the gate is 0, the map was saved for another epoch, or the
    /// header isn't the spelling of a map of this data set. No byte of the data set changes. Memory is found before the
    /// device is called.
    pub fn load_map(&mut self, alloc: Global, epoch: u32) -> Result<Loaded, LoadError>
        ensures memory { IsErrOf result error.NoMemory → self.new ≡ self.old }
        ensures same { IsSame self.old self.new }
        ensures later { self.old.faults ≤ self.new.faults }
        ensures cause { IsErrOf result error.Failed → Rose self.old.faults self.new.faults }
        ensures bytes { self.old.tells ≡ true → self.new.bytes ≡ self.old.bytes }
        ensures gate { IfOk result (λ l. self.old.tells ≡ true → l.gate_open ≡ not (gate_value self.old.bytes == 0)) }
        ensures size { IfOk result (λ l. IfSome l.map (λ used. length used ≡ self.old.blocks)) }
        ensures map { IfOk result (λ l. IfSome l.map (λ used. self.old.tells ≡ true → IsSaved epoch self.old.blocks used self.old.bytes)) }
        ensures none { IfOk result (λ l. IfNone l.map (self.old.tells ≡ true → (used : List Bool) → IsSaved epoch self.old.blocks used self.old.bytes → ⊥)) }
    {
        let free = Map::new(alloc, self.blocks)?;
        let mut header = [0; DATA_SET_HEADER as usize];
        self.read_header(&mut header)?;
        let gate_open = header[0] != SHUT;
        let map = if gate_open {
            saved_map(free, &header[1..], epoch)
        } else {
            None
        };
        Ok(Loaded { map, gate_open })
    }

    fn read_header(&mut self, header: &mut [u8]) -> Result<(), Failed>
        requires { length header.old ≡ 4096 }
        ensures same { IsSame self.old self.new }
        ensures cause { HasCause self.old.faults self.new.faults result }
        ensures bytes { self.old.tells ≡ true → self.new.bytes ≡ self.old.bytes }
        ensures length { length header.new ≡ 4096 }
        ensures read { OnOk result (self.old.tells ≡ true → header.new ≡ values (header_of self.old.bytes)) }
    {
        let _size = self.device.size();
        self.device.read(0, header)
    }

    /// The power of its device goes and comes back. `pick` chooses among the values of bytes that have no safe one.
    pub fn cut(&mut self, pick: u64)
        ensures same { IsSame self.old self.new }
        ensures faults { self.old.faults ≤ self.new.faults }
        ensures cut { self.old.tells ≡ true → EachPair IsCut self.old.bytes self.new.bytes }
    {
        let _size = self.device.size();
        self.device.power_cut(pick, 0);
    }
}
