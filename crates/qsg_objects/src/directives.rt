//! What a task or the operator asks for.

ghost use Rattle.std.specs.Prelude.{◌≡◌, length};

use qsg_num::{Actor, Body, Member, Name, Priority, QueueName, RecoverKind, StructNo, Wanted};
use std::marker::Model;

/// One request of a task or of the operator.
#[derive(Debug, Drop)]
pub enum Directive {
    /// Puts a message. None of priority or of persistent means the queue's default.
    Put {
        queue: QueueName,
        body: BodyWord,
        priority: Option<Priority>,
        persistent: Option<bool>,
        msg_id: [u8; 24],
        correl_id: [u8; 24],
    },
    /// Gets the first message that has these ids; None means any.
    Get {
        queue: QueueName,
        msg_id: Option<[u8; 24]>,
        correl_id: Option<[u8; 24]>,
    },
    /// Ends the unit of work and keeps what it did.
    Commit,
    /// Ends the unit of work and undoes what it did.
    Backout,
    /// Waits until the actor has given at least that many answers.
    Wait(Actor, u32),
    /// Copies the persistent messages of a structure into the member's log.
    Backup(Name),
    /// Recovers a structure that failed.
    Recover(Name, RecoverKind),
    /// Changes access or status of a member's data set of a structure.
    ResetSmds(Member, Name, Wanted),
    /// Shows the state of a structure.
    DisplayCfstatus(Name),
    /// Shows the depth of a queue.
    DisplayQueue(Name),
    /// Shows access and status of the data sets of a structure.
    DisplaySmds(Name),
    /// Ends a member abnormally; the number picks what is left of its unsynced writes.
    Crash(Member, u64),
    /// Starts a member.
    Start(Member),
    /// Stops a member in good order.
    Stop(Member),
    /// Loses what a structure holds.
    Lose(StructNo),
}

/// The body of a put.
#[derive(Debug, Drop)]
pub enum BodyWord {
    /// These bytes.
    Given(Body),
    /// So many bytes, at most the longest body; byte i is i mod 251.
    Size(u32),
}

/// A list of directives.
#[derive(Debug, Drop)]
pub struct Directives {
    items: Vec<Directive>,
}

impl Model for Directives {
    ghost use Rattle.std.specs.Prelude.{List};
    ghost use Rattle.qsg_objects.specs.declared.directives.Directive.{Directive};

    ghost Value = { List Directive };

    ghost view = { λ d. d.items.items };
}

impl Directives {
    /// The list that a `Vec` holds. Takes no memory.
    pub fn from_vec(items: Vec<Directive>) -> Self
        ensures { result ≡ items.items }
    {
        Directives { items }
    }

    /// The `Vec` that holds the list. Takes no memory.
    pub fn into_vec(self) -> Vec<Directive>
        ensures { result.items ≡ self }
    {
        self.items
    }

    /// Its items.
    pub fn as_slice(&self) -> &[Directive]
        ensures { result.now ≡ self.now }
    {
        self.items.as_slice()
    }

    /// How many items it has.
    pub fn len(&self) -> usize
        ensures { result ≡ length self.now }
    {
        self.items.len()
    }
}
