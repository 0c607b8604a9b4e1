//! The tasks whose next request is answered 2009.

ghost use Rattle.std.specs.Prelude.{◌≡◌, ◌<◌, false, replicate};
ghost use Rattle.qsg_works.specs.InHand.{place};
ghost use Rattle.qsg_step.specs.States.{is_due, with_due};

use qsg_num::{Member, TaskNo};
use std::marker::Model;

/// Tasks of a member, its system task among them.
const TASKS: usize = 5;
/// Tasks of all members that a group may have.
const ALL_TASKS: usize = 40;

/// The place of a task among those of all members.
fn place(member: Member, task: TaskNo) -> usize
    ensures value { result ≡ place member task }
    ensures within { result < ALL_TASKS }
{
    member.index() * TASKS + usize::from(task.get())
}

/// The tasks whose next request is answered 2009: their member ended while they had a unit with an operation.
#[derive(Drop)]
pub struct Dues {
    tasks: [bool; 40],
}

impl Model for Dues {
    ghost use Rattle.std.specs.Prelude.{Bool, List};

    ghost Value = { List Bool };

    ghost view = { λ d. d.tasks };
}

impl Dues {
    /// No task is one of them. Takes no memory.
    pub fn new() -> Dues
        ensures { result ≡ replicate 40 false }
    {
        Dues { tasks: [false; 40] }
    }

    /// Whether a task is one of them.
    pub fn is_due(&self, member: Member, task: TaskNo) -> bool
        ensures { result ≡ is_due member task self.now }
    {
        self.tasks[place(member, task)]
    }

    /// A task is one of them from now on, or isn't.
    pub fn set(&mut self, member: Member, task: TaskNo, is: bool)
        ensures { self.new ≡ with_due member task is self.old }
    {
        self.tasks[place(member, task)] = is;
    }
}
