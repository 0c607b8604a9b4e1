//! The data set of one member for one structure.

ghost use Rattle.std.specs.Prelude.{◌≡◌, ◌≤◌, ◌<◌, ◌-◌, ℕ, List, [], length, map, take, replicate, true, false, None, Some, IfOk, OnOk, OnErr, IfErr, IfSome, IsErrOf, IsSome};
ghost use Rattle.std.specs.List.{AllByRecursion};
ghost use Rattle.qsg_num.specs.Faults.{HasCause, Rose};
ghost use Rattle.qsg_num.specs.declared.ids.Block.{Block};
ghost use Rattle.qsg_disk.specs.Byte.{values};
ghost use Rattle.qsg_space.specs.Spaces.{free_blocks, free_count, marked};
ghost use Rattle.qsg_space.specs.Refusals.{IsWhyNone};
ghost use Rattle.qsg_dataset.specs.Contents.{Contents, HasBlocks, block_bytes, extent_of, header_of, offset_of};
ghost use Rattle.qsg_dataset.specs.Steps.{Writes, Syncs, SaveStep, ShutStep};
ghost use Rattle.qsg_dataset.specs.declared.data_set.LoadError.TheVariants as error;
ghost use Rattle.qsg_datasets.specs.Kept.{KeptSet, IsKept, no_hand, no_hands, stands, used_by, used_in, hand_of, with_hand, taken_in, taken, given_back, freed_in, freed, claimed, unmapped, emptied};
ghost use Rattle.qsg_datasets.specs.Calls.{IsStorageSame, IsCut, IsLoaded};

use qsg_dataset::{DataSet, LoadError, Loaded};
use qsg_disk::{Disk, Failed};
use qsg_num::{Block, Blocks, TaskNo};
use qsg_space::{Map, NoRoom, TakeError};
use std::alloc::{AllocError, Global};
use std::marker::Model;
use std::mem;

/// Tasks of a member, its system task among them.
const ALL_TASKS: usize = 5;

/// The map of a data set's used blocks, for one epoch of its structure.
#[derive(Debug, Drop)]
pub struct KeptMap {
    pub epoch: u32,
    pub used: Map,
}

/// Blocks that a task has taken for a body that no entry lists yet, in an epoch of the structure.
#[derive(Debug, Drop)]
pub struct Hand {
    pub epoch: u32,
    pub blocks: Blocks,
}

/// What was found in a header.
#[derive(Clone, Copy, Debug, PartialEq, Eq)]
pub struct Found {
    /// Whether it had a map that was saved for the epoch.
    pub has_map: bool,
    /// Whether its gate isn't 0.
    pub gate_open: bool,
}

/// A member's data set for a structure, with what the member keeps of it in its own storage.
///
/// The calls on the device are one device call each. They fail only where the device's count of faults rose.
#[derive(Drop)]
pub struct MemberDataSet<D: Disk> {
    data: DataSet<D>,
    map: Option<KeptMap>,
    hands: Vec<Hand>,
}

impl<D: Disk> Model for MemberDataSet<D> {
    ghost use Rattle.std.specs.Prelude.{◌≡◌, length, IfSome};
    ghost use Rattle.qsg_datasets.specs.Kept.{KeptSet};

    ghost Value = { KeptSet };

    ghost view = { λ s. record { contents = s.data; map = s.map; hands = s.hands.items } };

    ghost invariant = { λ s. (length s.hands.items ≡ 5) × IfSome s.map (λ m. length m.used ≡ s.data.blocks) };
}

/// A task that has taken no blocks. Takes no memory.
fn no_hand(alloc: Global) -> Hand
    ensures { result ≡ no_hand }
{
    Hand {
        epoch: 0,
        blocks: Blocks::from_vec(Vec::new(alloc)),
    }
}

/// The hands of all tasks of a member, for a data set of which none has taken blocks: what is made before the device of
/// the data set, so that no device is lost for want of memory.
#[derive(Debug, Drop)]
pub struct Hands {
    items: Vec<Hand>,
}

impl Model for Hands {
    ghost use Rattle.std.specs.Prelude.{◌≡◌, List, length};
    ghost use Rattle.qsg_datasets.specs.declared.member_data_set.Hand.{Hand};

    ghost Value = { List Hand };

    ghost view = { λ h. h.items.items };

    ghost invariant = { λ h. length h.items.items ≡ 5 };
}

impl Hands {
    /// Hands of tasks that have taken no blocks.
    pub fn new(alloc: Global) -> Result<Hands, AllocError>
        ensures { IfOk result (λ h. h ≡ no_hands) }
    {
        let mut items = Vec::with_capacity(alloc, ALL_TASKS)?;
        items.push(no_hand(alloc))?;
        items.push(no_hand(alloc))?;
        items.push(no_hand(alloc))?;
        items.push(no_hand(alloc))?;
        items.push(no_hand(alloc))?;
        Ok(Hands { items })
    }
}

/// No task has taken blocks any more.
fn empty_all(alloc: Global, hands: &mut [Hand])
    ensures { hands.new ≡ replicate (length hands.old) no_hand }
{
    for hand in hands {
        *hand = no_hand(alloc);
    }
}

/// Takes blocks from the map that stands for an epoch, or from a new one, which stands in its place then.
fn take_from(
    alloc: Global,
    map: &mut Option<KeptMap>,
    blocks: u32,
    epoch: u32,
    n: u32,
) -> Result<Blocks, TakeError>
    ensures given { IfOk result (λ given. given ≡ take n (free_blocks (used_by epoch blocks map.old))) }
    ensures marked { OnOk result (map.new ≡ taken_in epoch n (used_by epoch blocks map.old)) }
    ensures room { OnOk result (n ≤ free_count (used_by epoch blocks map.old)) }
    ensures refused { IfErr result (λ why. IsWhyNone why n (free_count (used_by epoch blocks map.old))) }
    ensures unchanged { OnErr result (map.new ≡ map.old) }
{
    match map {
        Some(kept) if kept.epoch == epoch => kept.used.take(alloc, n),
        _ => {
            let (used, given) = take_anew(alloc, blocks, n)?;
            *map = Some(KeptMap { epoch, used });
            Ok(given)
        }
    }
}

/// A map of which blocks are taken, all others being free.
fn take_anew(alloc: Global, blocks: u32, n: u32) -> Result<(Map, Blocks), TakeError>
    ensures given { IfOk result (λ made. made.1 ≡ take n (free_blocks (replicate blocks false))) }
    ensures marked { IfOk result (λ made. made.0 ≡ marked true (take n (free_blocks (replicate blocks false))) (replicate blocks false)) }
    ensures room { OnOk result (n ≤ free_count (replicate blocks false)) }
    ensures refused { IfErr result (λ why. IsWhyNone why n (free_count (replicate blocks false))) }
{
    if blocks < n {
        return Err(TakeError::NoRoom(NoRoom {
            need: n,
            free: blocks,
        }));
    }
    let mut used = Map::new(alloc, blocks).map_err(|_| TakeError::NoMemory)?;
    let given = used.take(alloc, n)?;
    Ok((used, given))
}

/// Makes blocks free in the map, where it stands for that epoch.
fn free_in(map: &mut Option<KeptMap>, epoch: u32, blocks: &Blocks)
    ensures { map.new ≡ freed_in epoch blocks.now map.old }
{
    if let Some(kept) = map {
        if kept.epoch == epoch {
            kept.used.put_back(blocks);
        }
    }
}

/// Makes blocks used.
fn claim_all(used: &mut Map, blocks: &[Block])
    requires within { AllByRecursion (λ (b : Block). b.number < length used.old) blocks.now }
    ensures claimed { used.new ≡ marked true blocks.now used.old }
    ensures size { length used.new ≡ length used.old }
{
    for block in blocks {
        used.claim(*block);
    }
}

impl<D: Disk> MemberDataSet<D> {
    /// A data set of which its member keeps no map, and of which no task has taken blocks. Where there is no memory for
    /// it, the data set is gone.
    pub fn new(alloc: Global, data_set: DataSet<D>) -> Result<Self, AllocError>
    where
        D: Drop,
        ensures { IfOk result (λ s. s ≡ record { contents = data_set; map = None; hands = no_hands }) }
    {
        let hands = Hands::new(alloc)?;
        Ok(MemberDataSet::with_hands(data_set, hands))
    }

    /// A data set of which its member keeps no map, and of which tasks have these hands. Takes no memory.
    pub fn with_hands(data_set: DataSet<D>, hands: Hands) -> Self
        ensures { result ≡ record { contents = data_set; map = None; hands = hands } }
    {
        MemberDataSet {
            data: data_set,
            map: None,
            hands: hands.items,
        }
    }

    /// Its data set. Takes no memory.
    pub fn into_data_set(self) -> DataSet<D>
        ensures { result ≡ self.contents }
    {
        self.data
    }

    /// What every data set of a member keeps.
    pub fn kept(&self)
        ensures { IsKept self.now }
    {
        self.data.kept();
    }

    /// A device that tells its bytes tells all of them.
    pub fn whole(&self)
        ensures { self.now.contents.tells ≡ true → length self.now.contents.bytes ≡ extent_of self.now.contents }
    {
        self.data.kept();
    }

    /// The blocks of a data set, and the bytes of each.
    pub fn blocks(&self) -> u32
        ensures { result ≡ self.now.contents.blocks }
    {
        self.data.blocks()
    }

    /// Bytes of a block.
    pub fn block_size(&self) -> u32
        ensures { result ≡ self.now.contents.block_size }
    {
        self.data.block_size()
    }

    /// Whether the map stands for an epoch of the structure.
    pub fn stands(&self, epoch: u32) -> bool
        ensures { result ≡ stands epoch self.now }
    {
        match &self.map {
            Some(map) => map.epoch == epoch,
            None => false,
        }
    }

    /// How many blocks are used by the map that stands for an epoch; 0 where none does.
    pub fn used(&self, epoch: u32) -> u32
        ensures { result ≡ self.now.contents.blocks - free_count (used_in epoch self.now) }
    {
        match &self.map {
            Some(map) if map.epoch == epoch => map.used.len() - map.used.free_count(),
            _ => 0,
        }
    }

    /// The blocks that a task has taken.
    pub fn hand(&self, task: TaskNo) -> &Hand
        ensures { result.now ≡ hand_of task self.now }
    {
        &self.hands[usize::from(task.get())]
    }

    /// A task takes the n lowest free blocks, for a body that it is about to write: from the map that stands for this
    /// epoch of the structure, or else from a new one. NoRoom comes exactly where fewer are free; an error changes
    /// nothing.
    pub fn take(&mut self, alloc: Global, task: TaskNo, epoch: u32, n: u32) -> Result<(), TakeError>
        ensures taken { OnOk result (self.new ≡ taken task epoch n self.old) }
        ensures room { OnOk result (n ≤ free_count (used_in epoch self.old)) }
        ensures refused { IfErr result (λ why. IsWhyNone why n (free_count (used_in epoch self.old))) }
        ensures unchanged { OnErr result (self.new ≡ self.old) }
    {
        let blocks = take_from(alloc, &mut self.map, self.data.blocks(), epoch, n)?;
        self.hands[usize::from(task.get())] = Hand { epoch, blocks };
        Ok(())
    }

    /// The blocks that a task has taken are free again, in the map of their epoch. Takes no memory.
    pub fn give_back(&mut self, alloc: Global, task: TaskNo)
        ensures { self.new ≡ given_back task self.old }
    {
        let hand = self.exchange(task, no_hand(alloc));
        self.free(hand.epoch, &hand.blocks);
    }

    /// Puts blocks in a task's hand in place of those that it had, which it gives: to an entry that is to list them, or
    /// back from one that wasn't written. Takes no memory.
    pub fn exchange(&mut self, task: TaskNo, hand: Hand) -> Hand
        ensures given { result ≡ hand_of task self.old }
        ensures put { self.new ≡ with_hand task hand self.old }
    {
        mem::replace(&mut self.hands[usize::from(task.get())], hand)
    }

    /// Makes blocks free in the map, where it stands for that epoch. Takes no memory.
    pub fn free(&mut self, epoch: u32, blocks: &Blocks)
        ensures { self.new ≡ freed epoch blocks.now self.old }
    {
        free_in(&mut self.map, epoch, blocks);
    }

    /// Makes blocks used in the map, if there is one. Takes no memory.
    pub fn claim(&mut self, blocks: &Blocks)
        requires within { AllByRecursion (λ (b : Block). b.number < self.old.contents.blocks) blocks.now }
        ensures { self.new ≡ claimed blocks.now self.old }
    {
        if let Some(map) = &mut self.map {
            claim_all(&mut map.used, blocks.as_slice());
        }
    }

    /// Drops the map. Takes no memory.
    pub fn drop_map(&mut self)
        ensures { self.new ≡ unmapped self.old }
    {
        self.map = None;
    }

    /// Drops the map and what tasks have taken. Takes no memory.
    pub fn clear(&mut self, alloc: Global)
        ensures { self.new ≡ emptied self.old }
    {
        self.map = None;
        empty_all(alloc, &mut self.hands);
    }

    /// Writes the first bytes of a block, at most all of it.
    pub fn write_block(&mut self, block: Block, bytes: &[u8]) -> Result<(), Failed>
        requires block { block.number < self.old.contents.blocks }
        requires length { length bytes.now ≤ self.old.contents.block_size }
        ensures same { IsStorageSame self.old self.new }
        ensures cause { HasCause self.old.contents.faults self.new.contents.faults result }
        ensures reads { OnOk result (self.old.contents.tells ≡ true → values (block_bytes self.new.contents block.number (length bytes.now)) ≡ bytes.now) }
        ensures others { self.old.contents.tells ≡ true → (k n : ℕ) → (k ≡ block.number → ⊥) → n ≤ self.old.contents.block_size → block_bytes self.new.contents k n ≡ block_bytes self.old.contents k n }
        ensures header { self.old.contents.tells ≡ true → header_of self.new.contents.bytes ≡ header_of self.old.contents.bytes }
        ensures write { self.old.contents.tells ≡ true → Writes (offset_of self.old.contents block.number) bytes.now result self.old.contents.bytes self.new.contents.bytes }
    {
        self.data.write_block(block, bytes)
    }

    /// Reads the first bytes of a block, at most all of it. No byte changes.
    pub fn read_block(&mut self, block: Block, into: &mut [u8]) -> Result<(), Failed>
        requires block { block.number < self.old.contents.blocks }
        requires length { length into.old ≤ self.old.contents.block_size }
        ensures same { IsStorageSame self.old self.new }
        ensures cause { HasCause self.old.contents.faults self.new.contents.faults result }
        ensures bytes { self.old.contents.tells ≡ true → self.new.contents.bytes ≡ self.old.contents.bytes }
        ensures length { length into.new ≡ length into.old }
        ensures read { OnOk result (self.old.contents.tells ≡ true → into.new ≡ values (block_bytes self.old.contents block.number (length into.old))) }
    {
        self.data.read_block(block, into)
    }

    /// Makes every byte safe. No value changes.
    pub fn sync(&mut self) -> Result<(), Failed>
        ensures same { IsStorageSame self.old self.new }
        ensures cause { HasCause self.old.contents.faults self.new.contents.faults result }
        ensures sync { self.old.contents.tells ≡ true → Syncs result self.old.contents.bytes self.new.contents.bytes }
    {
        self.data.sync()
    }

    /// Does one of the four calls that save the map: 1 writes it behind the gate, 2 syncs, 3 opens the gate, 4 syncs.
    pub fn save_step(&mut self, at: u8) -> Result<(), Failed>
        requires step { (1 ≤ at) × (at ≤ 4) }
        requires map { IsSome self.old.map }
        ensures same { IsStorageSame self.old self.new }
        ensures cause { HasCause self.old.contents.faults self.new.contents.faults result }
        ensures step { IfSome self.old.map (λ m. self.old.contents.tells ≡ true → SaveStep at m.epoch m.used result self.old.contents.bytes self.new.contents.bytes) }
    {
        match &self.map {
            Some(map) => self.data.save_step(&map.used, map.epoch, at),
            None => unreachable!(),
        }
    }

    /// Does one of the two calls that shut the gate: 1 writes it, 2 syncs.
    pub fn shut_step(&mut self, at: u8) -> Result<(), Failed>
        requires { (1 ≤ at) × (at ≤ 2) }
        ensures same { IsStorageSame self.old self.new }
        ensures cause { HasCause self.old.contents.faults self.new.contents.faults result }
        ensures step { self.old.contents.tells ≡ true → ShutStep at result self.old.contents.bytes self.new.contents.bytes }
    {
        self.data.shut_step(at)
    }

    /// Reads the header, and makes a map that stands for an epoch: the one that was saved for it, or else one of free
    /// blocks. An error leaves the map as it was; no byte changes. Memory is found before the device is called.
    pub fn load(&mut self, alloc: Global, epoch: u32) -> Result<Found, LoadError>
        ensures loaded { IfOk result (λ found. IsLoaded epoch found self.old self.new) }
        ensures memory { IsErrOf result error.NoMemory → self.new ≡ self.old }
        ensures later { self.old.contents.faults ≤ self.new.contents.faults }
        ensures cause { IsErrOf result error.Failed → Rose self.old.contents.faults self.new.contents.faults }
        ensures same { OnErr result (IsStorageSame self.old self.new) }
        ensures bytes { OnErr result (self.old.contents.tells ≡ true → self.new.contents.bytes ≡ self.old.contents.bytes) }
    {
        let free = Map::new(alloc, self.data.blocks())?;
        let Loaded { map, gate_open } = self.data.load_map(alloc, epoch)?;
        let has_map = map.is_some();
        let used = map.unwrap_or(free);
        self.map = Some(KeptMap { epoch, used });
        Ok(Found { has_map, gate_open })
    }

    /// The power of the device goes and comes back, and the member's storage is gone. `pick` chooses among the values of
    /// bytes that have no safe one. Takes no memory.
    pub fn cut(&mut self, alloc: Global, pick: u64)
        ensures { IsCut self.old self.new }
    {
        self.data.cut(pick);
        self.clear(alloc);
    }
}
