//! Marks of one bit each, eight in a byte.

ghost use Rattle.std.specs.Prelude.{◌≡◌, ◌≢◌, ◌+◌, ◌*◌, ◌/◌, ◌<◌, ◌≤◌, ℕ, length, true, false};
ghost use Rattle.qsg_disk_mem.specs.Bits.{is_marked, AreMarkedWithin};

/// Whether a place is marked.
pub fn is_marked(bits: &[u8], k: usize) -> bool
    requires { k / 8 < length bits.now }
    ensures { result ≡ is_marked bits.now k }
{
    let place = k % 8;
    (bits[k / 8] >> place) & 1 == 1
}

/// Marks a place.
pub fn mark(bits: &mut Vec<u8>, k: usize)
    requires { k / 8 < length bits.old.items }
    ensures length { length bits.new.items ≡ length bits.old.items }
    ensures here { is_marked bits.new.items k ≡ true }
    ensures others { (j : ℕ) → j ≢ k → is_marked bits.new.items j ≡ is_marked bits.old.items j }
{
    let place = k % 8;
    let byte = bits[k / 8];
    bits[k / 8] = byte | 1 << place;
}

/// Takes off all marks, which stand from `low` on and below `high`.
pub fn clear(bits: &mut Vec<u8>, low: usize, high: usize)
    requires within { AreMarkedWithin low high bits.old.items }
    requires room { high ≤ 8 * length bits.old.items }
    requires order { low ≤ high }
    ensures length { length bits.new.items ≡ length bits.old.items }
    ensures none { (k : ℕ) → is_marked bits.new.items k ≡ false }
{
    if low < high {
        bits[low / 8..(high - 1) / 8 + 1].fill(0);
    }
}
