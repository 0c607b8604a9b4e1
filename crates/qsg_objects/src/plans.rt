//! Members, sizes, works and schedule, and the plan of them all.

ghost use Rattle.std.specs.Prelude.{◌≡◌, length, IfOk};

use crate::directives::Directives;
use crate::registry::Objects;
use qsg_num::{Actor, Name};
use std::alloc::{AllocError, Global};
use std::marker::Model;

/// What a script asks for.
#[derive(Drop)]
pub struct Plan {
    /// The name of the group.
    pub group: Name,
    /// The members, in order of their numbers.
    pub members: MemberDefs,
    /// The sizes of the structures, in order of their numbers.
    pub sizes: Sizes,
    /// The structures and queues.
    pub objects: Objects,
    /// The directives of each task that has a section, and those of the operator, who comes last.
    pub works: Works,
    /// The schedule; empty where the script has none.
    pub schedule: Turns,
}

/// A member of the group.
#[derive(Debug, Drop)]
pub struct MemberDef {
    pub name: Name,
    /// Pages of its log.
    pub log_pages: u32,
    /// What is left of unsynced writes where a call on one of its devices fails.
    pub pick: u64,
}

/// How large a structure and its data sets are.
#[derive(Clone, Copy, Debug, PartialEq, Eq)]
pub struct Size {
    /// Elements of the list structure.
    pub elements: u32,
    /// Blocks of each member's data set.
    pub blocks: u32,
}

/// A list of members, in order of their numbers.
#[derive(Debug, Drop)]
pub struct MemberDefs {
    items: Vec<MemberDef>,
}

impl Model for MemberDefs {
    ghost use Rattle.std.specs.Prelude.{List};
    ghost use Rattle.qsg_objects.specs.declared.plans.MemberDef.{MemberDef};

    ghost Value = { List MemberDef };

    ghost view = { λ l. l.items.items };
}

impl MemberDefs {
    /// The list that a `Vec` holds. Takes no memory.
    pub fn from_vec(items: Vec<MemberDef>) -> Self
        ensures { result ≡ items.items }
    {
        MemberDefs { items }
    }

    /// The `Vec` that holds the list. Takes no memory.
    pub fn into_vec(self) -> Vec<MemberDef>
        ensures { result.items ≡ self }
    {
        self.items
    }

    /// Its items.
    pub fn as_slice(&self) -> &[MemberDef]
        ensures { result.now ≡ self.now }
    {
        self.items.as_slice()
    }

    /// How many items it has.
    pub fn len(&self) -> usize
        ensures { result ≡ length self.now }
    {
        self.items.len()
    }
}

/// A list of sizes of structures, in order of their numbers.
#[derive(Debug, Drop)]
pub struct Sizes {
    items: Vec<Size>,
}

impl Model for Sizes {
    ghost use Rattle.std.specs.Prelude.{List};
    ghost use Rattle.qsg_objects.specs.declared.plans.Size.{Size};

    ghost Value = { List Size };

    ghost view = { λ l. l.items.items };
}

impl Sizes {
    /// The list that a `Vec` holds. Takes no memory.
    pub fn from_vec(items: Vec<Size>) -> Self
        ensures { result ≡ items.items }
    {
        Sizes { items }
    }

    /// The `Vec` that holds the list. Takes no memory.
    pub fn into_vec(self) -> Vec<Size>
        ensures { result.items ≡ self }
    {
        self.items
    }

    /// Its items.
    pub fn as_slice(&self) -> &[Size]
        ensures { result.now ≡ self.now }
    {
        self.items.as_slice()
    }

    /// How many items it has.
    pub fn len(&self) -> usize
        ensures { result ≡ length self.now }
    {
        self.items.len()
    }
}

/// A list of actors, each with its directives.
#[derive(Debug, Drop)]
pub struct Works {
    items: Vec<(Actor, Directives)>,
}

impl Model for Works {
    ghost use Rattle.std.specs.Prelude.{List};
    ghost use Rattle.qsg_num.specs.declared.ids.Actor.{Actor};
    ghost use Rattle.qsg_objects.specs.declared.directives.Directive.{Directive};

    ghost Value = { List (Actor × List Directive) };

    ghost view = { λ l. l.items.items };
}

impl Works {
    /// The list that a `Vec` holds. Takes no memory.
    pub fn from_vec(items: Vec<(Actor, Directives)>) -> Self
        ensures { result ≡ items.items }
    {
        Works { items }
    }

    /// The `Vec` that holds the list. Takes no memory.
    pub fn into_vec(self) -> Vec<(Actor, Directives)>
        ensures { result.items ≡ self }
    {
        self.items
    }

    /// Its items.
    pub fn as_slice(&self) -> &[(Actor, Directives)]
        ensures { result.now ≡ self.now }
    {
        self.items.as_slice()
    }

    /// How many items it has.
    pub fn len(&self) -> usize
        ensures { result ≡ length self.now }
    {
        self.items.len()
    }
}

/// A list of lines of a schedule: an actor, and how often it has its turn.
#[derive(Debug, Drop)]
pub struct Turns {
    items: Vec<(Actor, u32)>,
}

impl Model for Turns {
    ghost use Rattle.std.specs.Prelude.{List, ℕ};
    ghost use Rattle.qsg_num.specs.declared.ids.Actor.{Actor};

    ghost Value = { List (Actor × ℕ) };

    ghost view = { λ l. l.items.items };
}

impl Turns {
    /// The list that a `Vec` holds. Takes no memory.
    pub fn from_vec(items: Vec<(Actor, u32)>) -> Self
        ensures { result ≡ items.items }
    {
        Turns { items }
    }

    /// The `Vec` that holds the list. Takes no memory.
    pub fn into_vec(self) -> Vec<(Actor, u32)>
        ensures { result.items ≡ self }
    {
        self.items
    }

    /// A copy of a slice.
    pub fn from_slice(alloc: Global, items: &[(Actor, u32)]) -> Result<Self, AllocError>
        ensures { IfOk result (λ l. l ≡ items.now) }
    {
        Ok(Turns {
            items: Vec::from_slice(alloc, items)?,
        })
    }

    /// Its items.
    pub fn as_slice(&self) -> &[(Actor, u32)]
        ensures { result.now ≡ self.now }
    {
        self.items.as_slice()
    }

    /// How many items it has.
    pub fn len(&self) -> usize
        ensures { result ≡ length self.now }
    {
        self.items.len()
    }
}

/// A list of actors.
#[derive(Debug, Drop)]
pub struct Actors {
    items: Vec<Actor>,
}

impl Model for Actors {
    ghost use Rattle.std.specs.Prelude.{List};
    ghost use Rattle.qsg_num.specs.declared.ids.Actor.{Actor};

    ghost Value = { List Actor };

    ghost view = { λ l. l.items.items };
}

impl Actors {
    /// The list that a `Vec` holds. Takes no memory.
    pub fn from_vec(items: Vec<Actor>) -> Self
        ensures { result ≡ items.items }
    {
        Actors { items }
    }

    /// The `Vec` that holds the list. Takes no memory.
    pub fn into_vec(self) -> Vec<Actor>
        ensures { result.items ≡ self }
    {
        self.items
    }

    /// A copy of a slice.
    pub fn from_slice(alloc: Global, items: &[Actor]) -> Result<Self, AllocError>
        ensures { IfOk result (λ l. l ≡ items.now) }
    {
        Ok(Actors {
            items: Vec::from_slice(alloc, items)?,
        })
    }

    /// Its items.
    pub fn as_slice(&self) -> &[Actor]
        ensures { result.now ≡ self.now }
    {
        self.items.as_slice()
    }

    /// How many items it has.
    pub fn len(&self) -> usize
        ensures { result ≡ length self.now }
    {
        self.items.len()
    }
}
