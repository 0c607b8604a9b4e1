//! Blocks in a plain list that tells of each block whether it is used.

ghost use Rattle.std.specs.Prelude.{◌≡◌, ℕ, ◌+◌, ◌-◌, ◌^◌, ◌<◌, ◌≤◌, length, IfOk, take};
ghost use Rattle.qsg_space.specs.Spaces.{free_blocks, free_count, marked};

use qsg_num::Block;
use std::alloc::{AllocError, Global};

/// How many blocks are free.
pub fn count_free(used: &[bool]) -> usize
    ensures value { result ≡ free_count used.now }
    ensures bound { result ≤ length used.now }
{
    used.iter().filter(|is_used| !**is_used).count()
}

/// The n lowest free blocks, or all where there are fewer.
pub fn lowest_free(alloc: Global, used: &[bool], n: usize) -> Result<Vec<Block>, AllocError>
    requires { length used.now < 2 ^ 32 }
    ensures { IfOk result (λ found. found.items ≡ take n (free_blocks used.now)) }
{
    let mut found = Vec::with_capacity(alloc, n)?;
    for (k, is_used) in used.iter().enumerate() {
        if found.len() == n {
            return Ok(found);
        }
        if !*is_used {
            found.push(Block { number: k as u32 })?;
        }
    }
    Ok(found)
}

/// Makes each of these blocks used, or each free; one that isn't there changes nothing.
pub fn mark(used: &mut [bool], blocks: &[Block], now: bool)
    ensures { used.new ≡ marked now blocks.now used.old }
{
    for block in blocks {
        let k = block.number as usize;
        if k < used.len() {
            used[k] = now;
        }
    }
}
