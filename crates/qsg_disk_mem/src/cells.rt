//! The bytes of a device in memory, each with its value now and, where it is in doubt, its old value.

ghost use Rattle.std.specs.Prelude.{◌≡◌, ◌+◌, ◌-◌, ◌/◌, ◌^◌, ◌<◌, ◌≤◌, ℕ, length, map, max, replicate, slice_index, IfOk};
ghost use Rattle.qsg_disk.specs.Byte.{Beside, part};
ghost use Rattle.qsg_disk_mem.specs.Cells.{now_of, zero_cell, doubted, all_overwritten, settled, all_cut};

use crate::bits::clear;
use crate::doubt::{choose_all, put_all_into_doubt};
use std::alloc::{AllocError, Global};
use std::marker::Model;

/// Bytes in memory. It takes a byte for each value now, one for each old value and a bit for each mark of
/// doubt; and it knows bounds of what is in doubt, so that no call walks more than that.
#[derive(Drop)]
pub struct Cells {
    values: Vec<u8>,
    kept: Vec<u8>,
    doubt: Vec<u8>,
    low: usize,
    high: usize,
}

impl Model for Cells {
    ghost use Rattle.std.specs.Prelude.{List};
    ghost use Rattle.qsg_disk_mem.specs.Cells.{Cell, cells_of};
    ghost use Rattle.qsg_disk_mem.specs.Sound.{IsSound};

    ghost Value = { List Cell };

    ghost view = { λ c. cells_of c.values.items c.kept.items c.doubt.items };

    ghost invariant = { λ c. IsSound c.values.items c.kept.items c.doubt.items c.low c.high };
}

/// Copies bytes into a range.
fn put(values: &mut Vec<u8>, at: usize, from: &[u8])
    requires { at + length from.now ≤ length values.old.items }
    ensures length { length values.new.items ≡ length values.old.items }
    ensures range { (k : ℕ) → at ≤ k → k < at + length from.now → slice_index values.new.items k ≡ slice_index from.now (k - at) }
    ensures front { (k : ℕ) → k < at → slice_index values.new.items k ≡ slice_index values.old.items k }
    ensures back { (k : ℕ) → at + length from.now ≤ k → slice_index values.new.items k ≡ slice_index values.old.items k }
{
    values[at..at + from.len()].copy_from_slice(from);
}

/// Copies a range.
fn get(values: &[u8], at: usize, into: &mut [u8])
    requires { at + length into.old ≤ length values.now }
    ensures { into.new ≡ part at (length into.old) values.now }
{
    into.copy_from_slice(&values[at..at + into.len()]);
}

/// Bounds that take in a range besides.
fn widened(low: usize, high: usize, at: usize, end: usize) -> (usize, usize)
    requires { at ≤ end }
    ensures range { (result.0 ≤ at) × (end ≤ result.1) }
    ensures old { low < high → (result.0 ≤ low) × (high ≤ result.1) }
    ensures within { result.1 ≤ max high end }
{
    if low < high {
        (low.min(at), high.max(end))
    } else {
        (at, end)
    }
}

impl Cells {
    /// Zeros, none in doubt. This alone takes memory.
    pub fn new(alloc: Global, size: u32) -> Result<Cells, AllocError>
        ensures { IfOk result (λ c. c ≡ replicate size zero_cell) }
    {
        let values = vec![in alloc; 0; size as usize]?;
        let kept = vec![in alloc; 0; size as usize]?;
        let doubt = vec![in alloc; 0; size as usize / 8 + 1]?;
        Ok(Cells::of_zeros(values, kept, doubt))
    }

    fn of_zeros(values: Vec<u8>, kept: Vec<u8>, doubt: Vec<u8>) -> Cells
        requires small { length values.items < 2 ^ 32 }
        requires values { values.items ≡ replicate (length values.items) 0 }
        requires kept { kept.items ≡ values.items }
        requires doubt { doubt.items ≡ replicate (length values.items / 8 + 1) 0 }
        ensures { result ≡ replicate (length values.items) zero_cell }
    {
        Cells {
            values,
            kept,
            doubt,
            low: 0,
            high: 0,
        }
    }

    /// How many bytes there are.
    pub fn len(&self) -> u32
        ensures { result ≡ length self.now }
    {
        self.values.len() as u32
    }

    /// The value now of a byte.
    pub fn value(&self, at: usize) -> u8
        requires { at < length self.now }
        ensures { result ≡ slice_index (map now_of self.now) at }
    {
        self.values[at]
    }

    /// Gives the values now of a range.
    pub fn read(&self, at: usize, into: &mut [u8])
        requires { at + length into.old ≤ length self.now }
        ensures { into.new ≡ map now_of (part at (length into.old) self.now) }
    {
        get(&self.values, at, into);
    }

    /// Widens the bounds of what is in doubt by a range, and puts its bytes into doubt.
    pub fn put_into_doubt(&mut self, at: usize, count: usize)
        requires { at + count ≤ length self.old }
        ensures beside { Beside at count self.old self.new }
        ensures range { part at count self.new ≡ map doubted (part at count self.old) }
    {
        put_all_into_doubt(&mut self.kept, &mut self.doubt, &self.values, at, count);
        let (low, high) = widened(self.low, self.high, at, at + count);
        self.low = low;
        self.high = high;
    }

    /// Sets the values of a range and puts its bytes into doubt.
    pub fn write(&mut self, at: usize, from: &[u8])
        requires { at + length from.now ≤ length self.old }
        ensures beside { Beside at (length from.now) self.old self.new }
        ensures range { part at (length from.now) self.new ≡ all_overwritten from.now (part at (length from.now) self.old) }
    {
        self.put_into_doubt(at, from.len());
        put(&mut self.values, at, from);
    }

    /// Takes all bytes out of doubt.
    pub fn settle(&mut self)
        ensures { self.new ≡ map settled self.old }
    {
        clear(&mut self.doubt, self.low, self.high);
        self.low = 0;
        self.high = 0;
    }

    /// Gives each byte in doubt the value that a cut chooses for it, and takes all out of doubt.
    pub fn cut(&mut self, pick: u64)
        ensures length { length self.new ≡ length self.old }
        ensures cut { self.new ≡ all_cut pick 0 self.old }
    {
        choose_all(
            pick,
            &mut self.values,
            &self.kept,
            &self.doubt,
            self.low,
            self.high,
        );
        self.settle();
    }
}
