//! The offload rules of a structure. They are those of the CFSTRUCT attributes OFFLD1TH, OFFLD1SZ and so on.

ghost use Rattle.std.specs.Prelude.{◌≡◌, ℕ, ◌<◌, ◌≤◌, ◌↔◌};
ghost use Rattle.qsg_offload.specs.Placing.{placed, fires};

use qsg_num::{INLINE_BODY, Rules};

/// Where a body goes.
#[derive(Clone, Copy, Debug, PartialEq, Eq)]
pub enum Placed {
    /// Into its entry.
    Inside,
    /// Outside, since it is too long for an entry.
    Always,
    /// Outside by the first rule.
    Rule1,
    /// Outside by the second rule.
    Rule2,
    /// Outside by the third rule.
    Rule3,
}

/// The size that switches a rule off, in units of 1,024 bytes.
const NO_RULE: u8 = 64;

/// Whether a rule sends a body of this many bytes outside, from a structure with this many of its elements used.
fn fires(length: u32, used: u32, capacity: u32, threshold: u8, size_k: u8) -> bool
    ensures { result ≡ fires length used capacity threshold size_k }
{
    size_k != NO_RULE
        && u64::from(used) * 100 >= u64::from(threshold) * u64::from(capacity)
        && length > u32::from(size_k) * 1_024
}

/// Where a body of `length` bytes goes while `used` of the structure's `capacity` elements are used. Takes no memory.
pub fn place(length: u32, used: u32, capacity: u32, rules: &Rules) -> Placed
    ensures value { result ≡ placed length used capacity rules.now }
    ensures always { (result ≡ Placed.Always) ↔ (INLINE_BODY < length) }
    ensures inside { result ≡ Placed.Inside → length ≤ INLINE_BODY }
{
    let fires_at = |k: usize| fires(length, used, capacity, rules.threshold[k], rules.size_k[k]);
    if length > INLINE_BODY {
        Placed::Always
    } else if fires_at(0) {
        Placed::Rule1
    } else if fires_at(1) {
        Placed::Rule2
    } else if fires_at(2) {
        Placed::Rule3
    } else {
        Placed::Inside
    }
}
