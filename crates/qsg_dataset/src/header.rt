//! The spelling of a saved map: the 4,095 bytes behind the gate.
//!
//! Byte 1 of the header is the version, 1. Bytes 2 and 3 are 0. Bytes 4 to 7 are the epoch and bytes 8 to 11 the
//! number of blocks, the highest byte first. Bytes 12 to 15 are 0. From byte 16 on there is one bit for each block, 1
//! for a used one: block k stands in byte `16 + k / 8` with value `2^(k mod 8)`. The other bits are 0.

ghost use Rattle.std.specs.Prelude.{◌≡◌, ℕ, ◌+◌, ◌*◌, ◌-◌, ◌/◌, ◌%◌, ◌<◌, ◌≤◌, ◌==◌, List, Bool, length, drop, replicate, false, true, slice_index, slice_index_or, IfOk, IfSome, IfNone, IsTrue, ◌↔◌};
ghost use Rattle.std.specs.Int.{bit_at};
ghost use Rattle.qsg_dataset.specs.Headers.{bit_of, bits_byte, header_byte, spelling, is_bit};

use qsg_num::Block;
use qsg_space::Map;

/// Bytes of the header behind its gate.
const REST: usize = 4_095;

/// The version of this spelling.
const VERSION: u8 = 1;

/// The offset in the header of the byte of the first blocks.
const FIRST_BITS: usize = 16;

/// The spelling of a map that is saved in an epoch.
pub fn spell(map: &Map, epoch: u32) -> [u8; 4095]
    requires { length map.now ≤ 8192 }
    ensures { result ≡ spelling epoch map.now }
{
    let mut rest = [0; REST];
    for k in 0..REST {
        rest[k] = header_byte(map, epoch, k + 1);
    }
    rest
}

/// The byte at an offset of the header, behind the gate.
#[tactic(auto, unfolding(crate::specs::Headers::header_byte))]
fn header_byte(map: &Map, epoch: u32, at: usize) -> u8
    requires small { at < 4096 }
    requires map { length map.now ≤ 8192 }
    ensures { result ≡ header_byte epoch map.now at }
{
    match at {
        1 => VERSION,
        4..=7 => epoch.to_be_bytes()[at - 4],
        8..=11 => map.len().to_be_bytes()[at - 8],
        16.. => bits_byte(map, (at - FIRST_BITS) as u32),
        _ => 0,
    }
}

/// Eight blocks in a byte.
fn bits_byte(map: &Map, j: u32) -> u8
    requires { j < 4096 }
    ensures { result ≡ bits_byte map.now j }
{
    let k = 8 * j;
    let low = bit(map, k) + 2 * bit(map, k + 1) + 4 * bit(map, k + 2) + 8 * bit(map, k + 3);
    let high = bit(map, k + 4) + 2 * bit(map, k + 5) + 4 * bit(map, k + 6) + 8 * bit(map, k + 7);
    low + 16 * high
}

/// 1 for a used block.
fn bit(map: &Map, k: u32) -> u8
    ensures value { result ≡ bit_of map.now k }
    ensures bound { result ≤ 1 }
{
    u8::from(map.is_used(Block { number: k }))
}

/// The map that the bytes behind a gate spell for an epoch, if they spell one; it is made in this one of free blocks.
pub fn saved_map(free: Map, rest: &[u8], epoch: u32) -> Option<Map>
    requires size { length rest.now ≡ 4095 }
    requires blocks { length free ≤ 8192 }
    requires free { free ≡ replicate (length free) false }
    ensures size { IfSome result (λ used. length used ≡ length free) }
    ensures spelled { IfSome result (λ used. rest.now ≡ spelling epoch used) }
    ensures none { IfNone result ((used : List Bool) → length used ≡ length free → rest.now ≡ spelling epoch used → ⊥) }
{
    let map = read_map(free, rest);
    if is_spelled(rest, &map, epoch) {
        Some(map)
    } else {
        None
    }
}

/// Whether the bytes behind a gate spell the map for an epoch.
fn is_spelled(rest: &[u8], map: &Map, epoch: u32) -> bool
    requires { length map.now ≤ 8192 }
    ensures { IsTrue result ↔ (rest.now ≡ spelling epoch map.now) }
{
    let spelled = spell(map, epoch);
    rest == spelled.as_slice()
}

/// The map of the bits behind a gate, made in one of free blocks.
fn read_map(free: Map, rest: &[u8]) -> Map
    requires size { length rest.now ≡ 4095 }
    requires blocks { length free ≤ 8192 }
    requires free { free ≡ replicate (length free) false }
    ensures size { length result ≡ length free }
    ensures bits { (k : ℕ) → k < length free → slice_index_or result k false ≡ is_bit rest.now k }
{
    let mut map = free;
    claim_all(&mut map, rest);
    map
}

/// Makes used each block whose bit is 1.
fn claim_all(map: &mut Map, rest: &[u8])
    requires size { length rest.now ≡ 4095 }
    requires blocks { length map.old ≤ 8192 }
    requires free { map.old ≡ replicate (length map.old) false }
    ensures size { length map.new ≡ length map.old }
    ensures bits { (k : ℕ) → k < length map.old → slice_index_or map.new k false ≡ is_bit rest.now k }
{
    let blocks = map.len();
    for k in 0..blocks {
        if is_bit(rest, k as usize) {
            map.claim(Block { number: k });
        }
    }
}

/// Whether the bit of a block is 1.
fn is_bit(rest: &[u8], k: usize) -> bool
    requires size { length rest.now ≡ 4095 }
    requires block { k < 8192 }
    ensures { result ≡ is_bit rest.now k }
{
    (rest[FIRST_BITS - 1 + k / 8] >> (k % 8)) & 1 == 1
}
