//! What is counted of all incarnations that failed.

ghost use Rattle.std.specs.Prelude.{◌≡◌, ◌<◌, ◌≤◌, [], IfOk, length, position};
ghost use Rattle.qsg_tallies.specs.Tallies.{is_tally_of, with_one};

use crate::tally::Tally;
use qsg_num::{Incarnation, Member};
use std::alloc::{AllocError, Global};
use std::marker::Model;

/// The tallies of incarnations that failed, in the order in which they did. Only `new` takes memory.
#[derive(Drop)]
pub struct Tallies {
    limit: u32,
    items: Vec<Tally>,
}

impl Model for Tallies {
    ghost use Rattle.std.specs.Prelude.{◌≤◌, length, vec_capacity};
    ghost use Rattle.qsg_tallies.specs.Tallies.{Tallied};

    ghost Value = { Tallied };

    ghost view = { λ t. record { limit = t.limit; rows = t.items.items } };

    ghost invariant = { λ t. (t.limit ≤ vec_capacity t.items) × (length t.items.items ≤ t.limit) };
}

fn is_tally_of(tally: &Tally, member: Member, incarnation: Incarnation) -> bool
    ensures { result ≡ is_tally_of member incarnation tally.now }
{
    tally.member.get() == member.get() && tally.incarnation.number == incarnation.number
}

/// The place of the tally of an incarnation.
fn place_of(tallies: &[Tally], member: Member, incarnation: Incarnation) -> Option<usize>
    ensures { result ≡ position (is_tally_of member incarnation) tallies.now }
{
    tallies
        .iter()
        .position(|tally| is_tally_of(tally, member, incarnation))
}

/// A tally with one mark more that the system task of a member took off.
fn with_one(tally: Tally, by: Member) -> Tally
    ensures { result ≡ with_one by tally }
{
    let mut counts = tally.counts;
    counts[by.index()] = counts[by.index()].saturating_add(1);
    Tally { counts, ..tally }
}

impl Tallies {
    ghost use Rattle.qsg_tallies.specs.Tallies.{new_tally, with_tally, counted};

    /// No tally yet, with room for so many.
    pub fn new(alloc: Global, limit: u32) -> Result<Tallies, AllocError>
        ensures { IfOk result (λ t. t ≡ record { limit = limit; rows = [] }) }
    {
        Ok(Tallies {
            limit,
            items: Vec::with_capacity(alloc, limit as usize)?,
        })
    }

    /// There are no more than there may be.
    pub fn kept(&self)
        ensures { length self.now.rows ≤ self.now.limit }
    {
        let _items = &self.items;
    }

    /// The tallies.
    pub fn as_slice(&self) -> &[Tally]
        ensures { result.now ≡ self.now.rows }
    {
        self.items.as_slice()
    }

    /// Adds the tally of an incarnation that failed, which so many marks name. Takes no memory.
    pub fn add(&mut self, member: Member, incarnation: Incarnation, marks: u64)
        requires room { length self.old.rows < self.old.limit }
        ensures { self.new ≡ with_tally (new_tally member incarnation marks) self.old }
    {
        let _ = self.items.push(Tally {
            member,
            incarnation,
            marks,
            counts: [0; 8],
        });
    }

    /// The system task of `by` took a mark of an incarnation off. Takes no memory.
    pub fn count(&mut self, member: Member, incarnation: Incarnation, by: Member)
        ensures { self.new ≡ counted member incarnation by self.old }
    {
        if let Some(place) = place_of(self.items.as_slice(), member, incarnation) {
            self.items[place] = with_one(self.items[place], by);
        }
    }
}
