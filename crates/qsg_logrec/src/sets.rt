//! Sets of structures.

ghost use Rattle.std.specs.Prelude.{◌≡◌, ◌≤◌, ◌↔◌, ℕ, List, IsSome, IfSome, true};
ghost use Rattle.std.specs.List.{list_any};
ghost use Rattle.qsg_num.specs.declared.seats.StructNo.{StructNo};
ghost use Rattle.qsg_logrec.specs.Sets.{structures_in, set_byte, has_bit, bit_of, is_rising, IsSet};

use qsg_num::StructNo;
use std::marker::Model;

/// A set of structures that isn't empty; contracts see the list of its structures, in rising order.
#[derive(Debug, Drop)]
pub struct StructSet {
    bits: u8,
}

impl Model for StructSet {
    ghost use Rattle.std.specs.Prelude.{◌≤◌, List};
    ghost use Rattle.qsg_num.specs.declared.seats.StructNo.{StructNo};
    ghost use Rattle.qsg_logrec.specs.Sets.{structures_in};

    ghost Value = { List StructNo };

    ghost view = { λ s. structures_in s.bits };

    ghost invariant = { λ s. (1 ≤ s.bits) × (s.bits ≤ 15) };
}

/// The bit of a structure.
fn bit(structure: StructNo) -> u8
    ensures { result ≡ bit_of structure }
{
    match structure {
        StructNo::One => 1,
        StructNo::Two => 2,
        StructNo::Three => 4,
        StructNo::Four => 8,
    }
}

impl StructSet {
    /// The set of a byte, in which structure s has the bit 2^(s-1). None exactly where it isn't 1 to 15.
    pub fn new(byte: u8) -> Option<Self>
        ensures valid { IsSome result ↔ ((1 ≤ byte) × (byte ≤ 15)) }
        ensures set { IfSome result (λ s. s ≡ structures_in byte) }
    {
        if byte == 0 || byte > 15 {
            return None;
        }
        Some(StructSet { bits: byte })
    }

    /// The set of one structure.
    pub fn one(structure: StructNo) -> Self
        ensures { result ≡ structures_in (bit_of structure) }
    {
        StructSet {
            bits: bit(structure),
        }
    }

    /// Its byte.
    pub fn get(&self) -> u8
        ensures byte { result ≡ set_byte self.now }
        ensures set { self.now ≡ structures_in result }
        ensures bounds { (1 ≤ result) × (result ≤ 15) }
    {
        self.bits
    }

    /// Whether a structure is in it.
    pub fn contains(&self, structure: StructNo) -> bool
        ensures { result ≡ has_bit (set_byte self.now) structure }
    {
        self.get() / bit(structure) % 2 == 1
    }
}

/// The list of a set is in rising order and isn't empty.
pub fn sets_are_rising()
    ensures { (set : List StructNo) → IsSet set → is_rising 0 set ≡ true }
{}
