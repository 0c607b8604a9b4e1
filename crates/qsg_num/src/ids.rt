//! Numbers that may have any value, and names that are made of several.

ghost use Rattle.std.specs.Prelude.{◌≡◌, ℕ, ◌+◌, ◌*◌, ◌/◌, ◌%◌, ◌^◌, ◌<◌, ◌≤◌, ◌↔◌, IsSome, IfSome, Option, Some};
ghost use Rattle.qsg_num.specs.Ids.{id_at, epoch_of, seq_of};

use crate::limits::{EPOCHS, SEQS};
use crate::seats::{Member, TaskNo};

/// An incarnation of a member: which of its lives it is, from 1.
#[derive(Clone, Copy, Debug, PartialEq, Eq, PartialOrd, Ord)]
pub struct Incarnation {
    pub number: u32,
}

impl Incarnation {
    ghost use Rattle.qsg_num.specs.declared.ids.Incarnation.{Incarnation};

    /// Every number is one, so this never answers None.
    pub fn new(n: u32) -> Option<Self>
        ensures { result ≡ Some (record { number = n }) }
    {
        Some(Incarnation { number: n })
    }

    /// Its number.
    pub fn get(self) -> u32
        ensures { result ≡ self.number }
    {
        self.number
    }
}

/// A block of a data set, from 0.
#[derive(Clone, Copy, Debug, PartialEq, Eq, PartialOrd, Ord)]
pub struct Block {
    pub number: u32,
}

impl Block {
    ghost use Rattle.qsg_num.specs.declared.ids.Block.{Block};

    /// Every number is one, so this never answers None.
    pub fn new(n: u32) -> Option<Self>
        ensures { result ≡ Some (record { number = n }) }
    {
        Some(Block { number: n })
    }

    /// Its number.
    pub fn get(self) -> u32
        ensures { result ≡ self.number }
    {
        self.number
    }
}

/// A page of a log, from 0. Numbers go on where the log's positions are used again.
#[derive(Clone, Copy, Debug, PartialEq, Eq, PartialOrd, Ord)]
pub struct PageNo {
    pub number: u32,
}

impl PageNo {
    ghost use Rattle.qsg_num.specs.declared.ids.PageNo.{PageNo};

    /// Every number is one, so this never answers None.
    pub fn new(n: u32) -> Option<Self>
        ensures { result ≡ Some (record { number = n }) }
    {
        Some(PageNo { number: n })
    }

    /// Its number.
    pub fn get(self) -> u32
        ensures { result ≡ self.number }
    {
        self.number
    }
}

/// Who acts in a step: a task of a member, or the operator.
#[derive(Clone, Copy, Debug, PartialEq, Eq)]
pub enum Actor {
    Task(Member, TaskNo),
    Operator,
}

/// The name of a unit of work, a backup or a purge. No name is used twice.
#[derive(Clone, Copy, Debug, PartialEq, Eq)]
pub struct UnitName {
    pub member: Member,
    pub incarnation: Incarnation,
    /// Drawn by this incarnation in order, from 1.
    pub seq: u32,
}

/// The id of an entry of a list structure: its epoch times 2^40, plus its number within the epoch.
#[derive(Clone, Copy, Debug, PartialEq, Eq, PartialOrd, Ord)]
pub struct EntryId {
    pub number: u64,
}

impl EntryId {
    /// The id of the entry `seq` of an epoch. None exactly where epoch isn't below 2^24 or seq not below 2^40.
    pub fn of(epoch: u32, seq: u64) -> Option<Self>
        ensures valid { IsSome result ↔ ((epoch < 2 ^ 24) × (seq < 2 ^ 40)) }
        ensures value { IfSome result (λ id. id ≡ id_at epoch seq) }
    {
        if epoch < EPOCHS && seq < SEQS {
            Some(EntryId {
                number: u64::from(epoch) * SEQS + seq,
            })
        } else {
            None
        }
    }

    /// The id that this number is; every number is one.
    pub fn new(n: u64) -> Self
        ensures { result.number ≡ n }
    {
        EntryId { number: n }
    }

    /// Its number.
    pub fn get(self) -> u64
        ensures { result ≡ self.number }
    {
        self.number
    }

    /// The epoch in which the entry was made.
    pub fn epoch(self) -> u32
        ensures value { result ≡ epoch_of self }
        ensures bound { result < 2 ^ 24 }
    {
        (self.number >> 40) as u32
    }

    /// Its number within the epoch.
    pub fn seq(self) -> u64
        ensures value { result ≡ seq_of self }
        ensures bound { result < 2 ^ 40 }
    {
        self.number % SEQS
    }
}
