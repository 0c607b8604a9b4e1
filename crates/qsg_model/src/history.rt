//! Operations, units and items.

ghost use Rattle.std.specs.Prelude.{◌≡◌, length};

use qsg_msg::Message;
use qsg_num::{EntryId, StructNo, UnitName};
use std::marker::Model;

/// One operation of a unit of work: it put this message, or got the one of this id.
#[derive(Debug, Drop)]
pub enum Op {
    Put(Message),
    Got(EntryId),
}

/// The operations of a unit, in order, each with its structure. That of a put is its message's.
#[derive(Debug, Drop)]
pub struct Ops {
    ops: Vec<(StructNo, Op)>,
}

impl Model for Ops {
    ghost use Rattle.std.specs.Prelude.{List};
    ghost use Rattle.qsg_num.specs.declared.seats.StructNo.{StructNo};
    ghost use Rattle.qsg_model.specs.declared.history.Op.{Op};

    ghost Value = { List (StructNo × Op) };

    ghost view = { λ a. a.ops.items };
}

impl Ops {
    /// The list that a `Vec` holds. Takes no memory.
    pub fn from_vec(ops: Vec<(StructNo, Op)>) -> Ops
        ensures { result ≡ ops.items }
    {
        Ops { ops }
    }

    /// The `Vec` that holds the list. Takes no memory.
    pub fn into_vec(self) -> Vec<(StructNo, Op)>
        ensures { result.items ≡ self }
    {
        self.ops
    }

    /// Its operations.
    pub fn as_slice(&self) -> &[(StructNo, Op)]
        ensures { result.now ≡ self.now }
    {
        self.ops.as_slice()
    }

    /// How many operations it has.
    pub fn len(&self) -> usize
        ensures { result ≡ length self.now }
    {
        self.ops.len()
    }
}

/// What happened to a group: a unit was committed, or a structure was lost or purged.
#[derive(Debug, Drop)]
pub enum Item {
    Unit(UnitName, Ops),
    Lost(StructNo),
    Purged(StructNo),
}
