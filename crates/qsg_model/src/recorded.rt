//! A history that is kept, with room for items to come.

ghost use Rattle.std.specs.Prelude.{◌≡◌, ◌+◌, ◌-◌, ◌<◌, ◌≤◌, [], ◌∷◌, ◌++◌, length, slice_get, option_copied, OnOk, OnErr, vec_len, vec_capacity};

use crate::history::Item;
use std::alloc::{AllocError, Global};
use std::marker::Model;

/// What happened to a group, the first item first. An item for which room was reserved is added without memory.
#[derive(Debug, Drop)]
pub struct History {
    items: Vec<Item>,
}

impl Model for History {
    ghost use Rattle.std.specs.Prelude.{◌-◌, vec_len, vec_capacity};
    ghost use Rattle.qsg_model.specs.Recorded.{Recorded};

    ghost Value = { Recorded };

    ghost view = { λ h. record { items = h.items.items; room = vec_capacity h.items - vec_len h.items } };
}

impl History {
    /// A history in which nothing happened. Takes no memory.
    pub fn new(alloc: Global) -> History
        ensures { result.items ≡ [] }
    {
        History {
            items: Vec::new(alloc),
        }
    }

    /// The history of these items, with the room that the `Vec` has for more. Takes no memory.
    pub fn from_vec(items: Vec<Item>) -> History
        ensures items { result.items ≡ items.items }
        ensures room { result.room ≡ vec_capacity items - vec_len items }
    {
        History { items }
    }

    /// The `Vec` that holds the items. Takes no memory.
    pub fn into_vec(self) -> Vec<Item>
        ensures { result.items ≡ self.items }
    {
        self.items
    }

    /// Its items.
    pub fn as_slice(&self) -> &[Item]
        ensures { result.now ≡ self.now.items }
    {
        self.items.as_slice()
    }

    /// How many items it has.
    pub fn len(&self) -> usize
        ensures { result ≡ length self.now.items }
    {
        self.items.len()
    }

    /// The item at a place, from 0; None exactly where there are no more than that.
    pub fn get(&self, place: usize) -> Option<&Item>
        ensures { option_copied result ≡ slice_get self.now.items place }
    {
        self.items.as_slice().get(place)
    }

    /// Reserves room for so many more items. It fails only where that room was missing, and then changes nothing.
    pub fn reserve(&mut self, more: usize) -> Result<(), AllocError>
        ensures items { self.new.items ≡ self.old.items }
        ensures room { OnOk result (more ≤ self.new.room) }
        ensures kept { self.old.room ≤ self.new.room }
        ensures missing { OnErr result (self.old.room < more) }
    {
        self.items.reserve(more)
    }

    /// Adds an item, in room that was reserved. Takes no memory.
    pub fn push(&mut self, item: Item)
        requires { 0 < self.old.room }
        ensures items { self.new.items ≡ self.old.items ++ item ∷ [] }
        ensures room { self.old.room ≤ self.new.room + 1 }
    {
        let _ = self.items.push(item);
    }
}
