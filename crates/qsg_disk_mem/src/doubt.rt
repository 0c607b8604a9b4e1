//! Bytes that come into doubt, and what a power cut makes of them, over plain slices.

ghost use Rattle.std.specs.Prelude.{◌≡◌, ◌≢◌, ◌+◌, ◌*◌, ◌<◌, ◌≤◌, ℕ, length, slice_index, Some, unwrap_or};
ghost use Rattle.qsg_disk_mem.specs.Bits.{AreMarkedWithin};
ghost use Rattle.qsg_disk_mem.specs.Cells.{cell_at, before_at, after_cut};

use crate::bits::{is_marked, mark};
use crate::choose::choose;

/// Puts a byte into doubt. One that is in doubt keeps its older old value.
fn put_into_doubt(kept: &mut Vec<u8>, doubt: &mut Vec<u8>, values: &[u8], k: usize)
    requires within { k < length values.now }
    requires kept { length kept.old.items ≡ length values.now }
    requires room { length values.now ≤ 8 * length doubt.old.items }
    ensures kept { length kept.new.items ≡ length kept.old.items }
    ensures room { length doubt.new.items ≡ length doubt.old.items }
    ensures here { before_at kept.new.items doubt.new.items k ≡ Some (unwrap_or (before_at kept.old.items doubt.old.items k) (slice_index values.now k)) }
    ensures others { (j : ℕ) → j ≢ k → before_at kept.new.items doubt.new.items j ≡ before_at kept.old.items doubt.old.items j }
{
    if !is_marked(doubt, k) {
        kept[k] = values[k];
        mark(doubt, k);
    }
}

/// Puts the bytes of a range into doubt.
pub fn put_all_into_doubt(
    kept: &mut Vec<u8>,
    doubt: &mut Vec<u8>,
    values: &[u8],
    at: usize,
    count: usize,
)
    requires within { at + count ≤ length values.now }
    requires kept { length kept.old.items ≡ length values.now }
    requires room { length values.now ≤ 8 * length doubt.old.items }
    ensures kept { length kept.new.items ≡ length kept.old.items }
    ensures room { length doubt.new.items ≡ length doubt.old.items }
    ensures range { (k : ℕ) → at ≤ k → k < at + count → before_at kept.new.items doubt.new.items k ≡ Some (unwrap_or (before_at kept.old.items doubt.old.items k) (slice_index values.now k)) }
    ensures front { (k : ℕ) → k < at → before_at kept.new.items doubt.new.items k ≡ before_at kept.old.items doubt.old.items k }
    ensures back { (k : ℕ) → at + count ≤ k → before_at kept.new.items doubt.new.items k ≡ before_at kept.old.items doubt.old.items k }
{
    for i in at..at + count {
        put_into_doubt(kept, doubt, values, i);
    }
}

/// Gives a byte, if it is in doubt, the value that a cut chooses for it.
fn choose_one(pick: u64, values: &mut Vec<u8>, kept: &[u8], doubt: &[u8], k: usize)
    requires within { k < length values.old.items }
    requires kept { length kept.now ≡ length values.old.items }
    requires room { length values.old.items ≤ 8 * length doubt.now }
    ensures length { length values.new.items ≡ length values.old.items }
    ensures here { slice_index values.new.items k ≡ (after_cut pick k (cell_at values.old.items kept.now doubt.now k)).now }
    ensures others { (j : ℕ) → j ≢ k → slice_index values.new.items j ≡ slice_index values.old.items j }
{
    if is_marked(doubt, k) {
        values[k] = choose(pick, k as u64, kept[k], values[k]);
    }
}

/// Gives each byte in doubt the value that a cut chooses for it.
pub fn choose_all(
    pick: u64,
    values: &mut Vec<u8>,
    kept: &[u8],
    doubt: &[u8],
    low: usize,
    high: usize,
)
    requires kept { length kept.now ≡ length values.old.items }
    requires room { length values.old.items ≤ 8 * length doubt.now }
    requires doubt { AreMarkedWithin low high doubt.now }
    requires within { high ≤ length values.old.items }
    ensures length { length values.new.items ≡ length values.old.items }
    ensures chosen { (k : ℕ) → k < length values.old.items → slice_index values.new.items k ≡ (after_cut pick k (cell_at values.old.items kept.now doubt.now k)).now }
{
    for i in low..high {
        choose_one(pick, values, kept, doubt, i);
    }
}
