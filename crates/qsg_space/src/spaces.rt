//! The map of a data set's blocks.

ghost use Rattle.std.specs.Prelude.{◌≡◌, ℕ, ◌<◌, ◌≤◌, length, IfOk, OnOk, IfErr, OnErr, take, false, true, replicate, slice_set};
ghost use Rattle.qsg_space.specs.Spaces.{free_blocks, free_count, marked, is_used, is_free};

use crate::marks::{count_free, lowest_free, mark};
use qsg_num::{Block, Blocks};
use std::alloc::{AllocError, Global};
use std::marker::Model;

/// A data set has fewer free blocks than were asked for.
#[derive(Clone, Copy, Debug, PartialEq, Eq)]
pub struct NoRoom {
    /// Blocks asked for.
    pub need: u32,
    /// Blocks that are free.
    pub free: u32,
}

/// Why no blocks were taken.
#[derive(Clone, Copy, Debug, PartialEq, Eq)]
pub enum TakeError {
    NoRoom(NoRoom),
    NoMemory,
}

/// Which blocks of a data set are used. Contracts see it as a list that tells this of each block in order.
#[derive(Debug, Drop)]
pub struct Map {
    used: Vec<bool>,
}

impl Model for Map {
    ghost use Rattle.std.specs.Prelude.{List, Bool, ◌<◌, ◌^◌, length};

    ghost Value = { List Bool };

    ghost view = { λ map. map.used.items };

    ghost invariant = { λ map. length map.used.items < 2 ^ 32 };
}

impl Map {
    ghost use Rattle.qsg_space.specs.Refusals.{IsWhyNone};

    /// A map of this many blocks, all free.
    pub fn new(alloc: Global, blocks: u32) -> Result<Map, AllocError>
        ensures { IfOk result (λ map. map ≡ replicate blocks false) }
    {
        Ok(Map {
            used: vec![in alloc; false; blocks as usize]?,
        })
    }

    /// How many blocks the data set has. Takes no memory.
    pub fn len(&self) -> u32
        ensures { result ≡ length self.now }
    {
        self.used.len() as u32
    }

    /// How many blocks are free. Takes no memory.
    pub fn free_count(&self) -> u32
        ensures value { result ≡ free_count self.now }
        ensures bound { result ≤ length self.now }
    {
        count_free(&self.used) as u32
    }

    /// Whether a block is used; one past the end isn't. Takes no memory.
    pub fn is_used(&self, block: Block) -> bool
        ensures { result ≡ is_used self.now block }
    {
        let k = block.number as usize;
        k < self.used.len() && self.used[k]
    }

    /// Makes the n lowest free blocks used, and gives them in rising order. It answers NoRoom exactly where
    /// fewer are free; an error leaves the map as it was.
    pub fn take(&mut self, alloc: Global, n: u32) -> Result<Blocks, TakeError>
        ensures taken { IfOk result (λ blocks. blocks ≡ take n (free_blocks self.old)) }
        ensures marked { OnOk result (self.new ≡ marked true (take n (free_blocks self.old)) self.old) }
        ensures room { OnOk result (n ≤ free_count self.old) }
        ensures refused { IfErr result (λ why. IsWhyNone why n (free_count self.old)) }
        ensures unchanged { OnErr result (self.new ≡ self.old) }
        ensures size { length self.new ≡ length self.old }
    {
        let free = self.free_count();
        if free < n {
            return Err(TakeError::NoRoom(NoRoom { need: n, free }));
        }
        let found = self.lowest(alloc, n).map_err(|_| TakeError::NoMemory)?;
        self.mark(&found, true);
        Ok(Blocks::from_vec(found))
    }

    /// Makes free each of these blocks that is in range and used, and leaves all else as it is. Takes no memory.
    pub fn put_back(&mut self, blocks: &Blocks)
        ensures freed { self.new ≡ marked false blocks.now self.old }
        ensures size { length self.new ≡ length self.old }
    {
        self.mark(blocks.as_slice(), false);
    }

    /// Makes a block used, and answers whether it was free. Takes no memory.
    pub fn claim(&mut self, block: Block) -> bool
        requires { block.number < length self.old }
        ensures value { result ≡ is_free self.old block }
        ensures claimed { self.new ≡ slice_set self.old block.number true }
        ensures size { length self.new ≡ length self.old }
    {
        let k = block.number as usize;
        let was_free = !self.used[k];
        self.used[k] = true;
        was_free
    }

    fn lowest(&self, alloc: Global, n: u32) -> Result<Vec<Block>, AllocError>
        ensures { IfOk result (λ found. found.items ≡ take n (free_blocks self.now)) }
    {
        lowest_free(alloc, &self.used, n as usize)
    }

    fn mark(&mut self, blocks: &[Block], now: bool)
        ensures marked { self.new ≡ marked now blocks.now self.old }
        ensures size { length self.new ≡ length self.old }
    {
        mark(&mut self.used, blocks, now);
    }
}
