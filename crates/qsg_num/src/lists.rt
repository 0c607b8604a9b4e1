//! Short lists, which contracts see as lists. Each is made from the `Vec` or `String` that holds it, and
//! gives it back, without taking memory.

ghost use Rattle.std.specs.Prelude.{◌≡◌, ℕ, ◌≤◌, ◌↔◌, List, IsTrue, IfOk, IfSome, IfNone, IsSome, length, string_bytes, nat_eq, ◌==◌};
ghost use Rattle.std.specs.Cmp.Lexicographic.{pointwise};
ghost use Rattle.std.proofs.Common.{rules};
ghost use Rattle.std.specs.Cmp.Rules.{comparing};

use crate::ids::{Block, Incarnation};
use crate::seats::Member;
use std::alloc::{AllocError, Global};
use std::marker::Model;

/// A list of bytes.
#[derive(Debug, Drop, Clone)]
pub struct Bytes {
    items: Vec<u8>,
}

impl Model for Bytes {
    ghost use Rattle.std.specs.Prelude.{List, ℕ};

    ghost Value = { List ℕ };

    ghost view = { λ b. b.items.items };
}

impl Bytes {
    /// The list that a `Vec` holds. Takes no memory.
    pub fn from_vec(items: Vec<u8>) -> Self
        ensures { result ≡ items.items }
    {
        Bytes { items }
    }

    /// The `Vec` that holds the list. Takes no memory.
    pub fn into_vec(self) -> Vec<u8>
        ensures { result.items ≡ self }
    {
        self.items
    }

    /// A copy of a slice.
    pub fn from_slice(alloc: Global, items: &[u8]) -> Result<Self, AllocError>
        ensures { IfOk result (λ b. b ≡ items.now) }
    {
        Ok(Bytes {
            items: Vec::from_slice(alloc, items)?,
        })
    }

    /// Its items.
    pub fn as_slice(&self) -> &[u8]
        ensures { result.now ≡ self.now }
    {
        self.items.as_slice()
    }

    /// How many items it has.
    pub fn len(&self) -> usize
        ensures { result ≡ length self.now }
    {
        self.items.len()
    }
}

impl PartialEq for Bytes {
    ghost eq = { pointwise ◌==◌ };

    ghost laws = { Prim.search (comparing, rules) };

    fn eq(&self, other: &Bytes) -> bool {
        self.items.as_slice() == other.items.as_slice()
    }
}

/// A list of blocks of a data set.
#[derive(Debug, Drop, Clone)]
pub struct Blocks {
    items: Vec<Block>,
}

impl Model for Blocks {
    ghost use Rattle.std.specs.Prelude.{List, ℕ};
    ghost use Rattle.qsg_num.specs.declared.ids.Block.{Block};

    ghost Value = { List Block };

    ghost view = { λ b. b.items.items };
}

impl Blocks {
    /// The list that a `Vec` holds. Takes no memory.
    pub fn from_vec(items: Vec<Block>) -> Self
        ensures { result ≡ items.items }
    {
        Blocks { items }
    }

    /// The `Vec` that holds the list. Takes no memory.
    pub fn into_vec(self) -> Vec<Block>
        ensures { result.items ≡ self }
    {
        self.items
    }

    /// A copy of a slice.
    pub fn from_slice(alloc: Global, items: &[Block]) -> Result<Self, AllocError>
        ensures { IfOk result (λ b. b ≡ items.now) }
    {
        Ok(Blocks {
            items: Vec::from_slice(alloc, items)?,
        })
    }

    /// Its items.
    pub fn as_slice(&self) -> &[Block]
        ensures { result.now ≡ self.now }
    {
        self.items.as_slice()
    }

    /// How many items it has.
    pub fn len(&self) -> usize
        ensures { result ≡ length self.now }
    {
        self.items.len()
    }
}

/// A list of incarnations of members.
#[derive(Debug, Drop, Clone)]
pub struct Names {
    items: Vec<(Member, Incarnation)>,
}

impl Model for Names {
    ghost use Rattle.std.specs.Prelude.{List, ℕ};
    ghost use Rattle.qsg_num.specs.declared.ids.Incarnation.{Incarnation};
    ghost use Rattle.qsg_num.specs.declared.seats.Member.{Member};

    ghost Value = { List (Member × Incarnation) };

    ghost view = { λ b. b.items.items };
}

impl Names {
    /// The list that a `Vec` holds. Takes no memory.
    pub fn from_vec(items: Vec<(Member, Incarnation)>) -> Self
        ensures { result ≡ items.items }
    {
        Names { items }
    }

    /// The `Vec` that holds the list. Takes no memory.
    pub fn into_vec(self) -> Vec<(Member, Incarnation)>
        ensures { result.items ≡ self }
    {
        self.items
    }

    /// A copy of a slice.
    pub fn from_slice(alloc: Global, items: &[(Member, Incarnation)]) -> Result<Self, AllocError>
        ensures { IfOk result (λ b. b ≡ items.now) }
    {
        Ok(Names {
            items: Vec::from_slice(alloc, items)?,
        })
    }

    /// Its items.
    pub fn as_slice(&self) -> &[(Member, Incarnation)]
        ensures { result.now ≡ self.now }
    {
        self.items.as_slice()
    }

    /// How many items it has.
    pub fn len(&self) -> usize
        ensures { result ≡ length self.now }
    {
        self.items.len()
    }
}

/// A name, seen by contracts as its bytes.
#[derive(Debug, Drop, Clone)]
pub struct Name {
    text: String,
}

impl Model for Name {
    ghost Value = { List ℕ };

    ghost view = { λ n. string_bytes n.text };
}

impl PartialEq for Name {
    ghost eq = { pointwise ◌==◌ };

    ghost laws = { Prim.search (comparing, rules) };

    fn eq(&self, other: &Name) -> bool {
        self.text.as_str() == other.text.as_str()
    }
}

impl Name {
    /// The name that a `String` holds. Takes no memory.
    pub fn from_string(text: String) -> Self
        ensures { result ≡ string_bytes text }
    {
        Name { text }
    }

    /// The `String` that holds the name. Takes no memory.
    pub fn into_string(self) -> String
        ensures { string_bytes result ≡ self }
    {
        self.text
    }

    /// A copy of a text.
    pub fn from_str(alloc: Global, text: &str) -> Result<Self, AllocError>
        ensures { IfOk result (λ n. n ≡ text.now) }
    {
        Ok(Name {
            text: String::from_str(alloc, text)?,
        })
    }

    /// Its text.
    pub fn as_str(&self) -> &str
        ensures { result.now ≡ self.now }
    {
        self.text.as_str()
    }

    /// How many bytes it has.
    pub fn len(&self) -> usize
        ensures { result ≡ length self.now }
    {
        self.text.len()
    }

    /// Whether it is this text.
    pub fn is(&self, text: &str) -> bool
        ensures value { result ≡ pointwise nat_eq self.now text.now }
        ensures same { IsTrue result ↔ (self.now ≡ text.now) }
    {
        self.text.as_str() == text
    }
}
