//! The answers of an actor, with room for those to come.

ghost use Rattle.std.specs.Prelude.{◌≡◌, ◌+◌, ◌-◌, ◌<◌, ◌≤◌, [], ◌∷◌, ◌++◌, length, OnOk, OnErr, vec_len, vec_capacity};

use crate::replies::Reply;
use std::alloc::{AllocError, Global};
use std::marker::Model;

/// The directive that is answered, by its first word.
#[derive(Clone, Copy, Debug, PartialEq, Eq)]
pub enum Verb {
    Put,
    Get,
    Commit,
    Backout,
    Wait,
    Backup,
    Recover,
    Reset,
    Display,
    Crash,
    Start,
    Stop,
    Lose,
    /// Work of a system task, which no directive asks for.
    System,
}

/// An answer.
#[derive(Debug, Drop)]
pub struct Answer {
    pub verb: Verb,
    pub reply: Reply,
    /// The items that the history had just before the step that gave it.
    pub at: u64,
}

/// The answers of an actor, the first one first. An answer for which room was reserved is added without memory.
#[derive(Debug, Drop)]
pub struct Transcript {
    items: Vec<Answer>,
}

impl Model for Transcript {
    ghost use Rattle.std.specs.Prelude.{◌-◌, vec_len, vec_capacity};
    ghost use Rattle.qsg_requests.specs.Answered.{Answered};

    ghost Value = { Answered };

    ghost view = { λ t. record { answers = t.items.items; room = vec_capacity t.items - vec_len t.items } };
}

impl Transcript {
    /// No answer yet, and no room. Takes no memory.
    pub fn new(alloc: Global) -> Transcript
        ensures { result.answers ≡ [] }
    {
        Transcript {
            items: Vec::new(alloc),
        }
    }

    /// Its answers.
    pub fn as_slice(&self) -> &[Answer]
        ensures { result.now ≡ self.now.answers }
    {
        self.items.as_slice()
    }

    /// How many answers it has.
    pub fn len(&self) -> usize
        ensures { result ≡ length self.now.answers }
    {
        self.items.len()
    }

    /// Reserves room for so many more answers. It fails only where that room was missing, and then changes nothing.
    pub fn reserve(&mut self, more: usize) -> Result<(), AllocError>
        ensures answers { self.new.answers ≡ self.old.answers }
        ensures room { OnOk result (more ≤ self.new.room) }
        ensures kept { self.old.room ≤ self.new.room }
        ensures missing { OnErr result (self.old.room < more) }
    {
        self.items.reserve(more)
    }

    /// Adds an answer, in room that was reserved. Takes no memory.
    pub fn push(&mut self, answer: Answer)
        requires { 0 < self.old.room }
        ensures answers { self.new.answers ≡ self.old.answers ++ answer ∷ [] }
        ensures room { self.old.room ≤ self.new.room + 1 }
    {
        let _ = self.items.push(answer);
    }
}
