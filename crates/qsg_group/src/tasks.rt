//! The unit of work that a task holds.

ghost use Rattle.std.specs.Prelude.{◌≡◌, length};

use qsg_lists::Connection;
use qsg_model::Ops;
use qsg_num::{EntryId, PageNo, UnitName};
use std::marker::Model;

/// An entry that a unit has marked: the one that it put, or the one that it got.
#[derive(Clone, Copy, Debug, PartialEq, Eq)]
pub struct Claim {
    /// The use of the structure in which it was marked.
    pub connection: Connection,
    pub id: EntryId,
    /// Whether its message is persistent, so that the operation is logged.
    pub persistent: bool,
}

/// The entries that a unit has marked, in the order of its operations.
#[derive(Debug, Drop)]
pub struct Claims {
    items: Vec<Claim>,
}

impl Model for Claims {
    ghost use Rattle.std.specs.Prelude.{List};
    ghost use Rattle.qsg_group.specs.declared.tasks.Claim.{Claim};

    ghost Value = { List Claim };

    ghost view = { λ c. c.items.items };
}

impl Claims {
    /// The list that a `Vec` holds. Takes no memory.
    pub fn from_vec(items: Vec<Claim>) -> Claims
        ensures { result ≡ items.items }
    {
        Claims { items }
    }

    /// The `Vec` that holds the list. Takes no memory.
    pub fn into_vec(self) -> Vec<Claim>
        ensures { result.items ≡ self }
    {
        self.items
    }

    /// Its items.
    pub fn as_slice(&self) -> &[Claim]
        ensures { result.now ≡ self.now }
    {
        self.items.as_slice()
    }

    /// How many items it has.
    pub fn len(&self) -> usize
        ensures { result ≡ length self.now }
    {
        self.items.len()
    }
}

/// How far a unit of work has come.
#[derive(Clone, Copy, Debug, PartialEq, Eq)]
pub enum Stage {
    /// It may have further operations.
    Open,
    /// Its run of log pages, from this page on, is being written.
    Hardening(PageNo),
    /// Its run, from this page on, is safe; so many of its marks are settled.
    Committed { first: PageNo, settled: usize },
    /// It is undone; so many of its marks are settled.
    BackedOut { settled: usize },
}

/// What a task holds: the name that it drew, and the unit of work of that name.
#[derive(Debug, Drop)]
pub struct Task {
    /// None until the task draws a name.
    pub unit: Option<UnitName>,
    /// The operations, until the unit is committed or backed out.
    pub ops: Ops,
    /// The marks of the operations.
    pub claims: Claims,
    pub stage: Stage,
}
