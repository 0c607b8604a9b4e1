//! The work in hand of each task of a group.

ghost use Rattle.std.specs.Prelude.{◌≡◌, ◌<◌, ◌+◌, IfOk, Option, Some, None, is_some, length, replicate};
ghost use Rattle.qsg_works.specs.declared.work.Work.{Work};
ghost use Rattle.qsg_works.specs.InHand.{place, work_of, with_work, IsOther};

use crate::work::Work;
use qsg_num::{Member, TaskNo};
use std::alloc::{AllocError, Global};
use std::marker::Model;

/// Tasks of a member, its system task among them.
const TASKS: usize = 5;
/// Tasks of all members that a group may have.
const ALL_TASKS: usize = 40;

/// The place of a task among those of all members.
fn place(member: Member, task: TaskNo) -> usize
    ensures value { result ≡ place member task }
    ensures within { result < ALL_TASKS }
{
    member.index() * TASKS + usize::from(task.get())
}

/// The work in hand of each task of each member. No call takes memory once it is made.
#[derive(Drop)]
pub struct Works {
    items: Vec<Option<Work>>,
}

impl Model for Works {
    ghost use Rattle.std.specs.Prelude.{◌≡◌, List, Option, length};
    ghost use Rattle.qsg_works.specs.declared.work.Work.{Work};

    ghost Value = { List (Option Work) };

    ghost view = { λ w. w.items.items };

    ghost invariant = { λ w. length w.items.items ≡ 40 };
}

impl Works {
    /// No task has a work in hand.
    pub fn new(alloc: Global) -> Result<Works, AllocError>
        ensures { IfOk result (λ works. works ≡ replicate 40 None) }
    {
        let mut items = Vec::with_capacity(alloc, ALL_TASKS)?;
        for _turn in 0..ALL_TASKS {
            items.push(None)?;
        }
        Ok(Works { items })
    }

    /// Whether a task has a work in hand.
    pub fn is_busy(&self, member: Member, task: TaskNo) -> bool
        ensures { result ≡ is_some (work_of member task self.now) }
    {
        self.items[place(member, task)].is_some()
    }

    /// Takes the work of a task out of its hand; None where it has none.
    pub fn take(&mut self, member: Member, task: TaskNo) -> Option<Work>
        ensures given { result ≡ work_of member task self.old }
        ensures left { self.new ≡ with_work member task None self.old }
    {
        self.items[place(member, task)].take()
    }

    /// Puts a work into the hand of a task, in place of what it had.
    pub fn put(&mut self, member: Member, task: TaskNo, work: Work)
        ensures { self.new ≡ with_work member task (Some work) self.old }
    {
        self.items[place(member, task)] = Some(work);
    }

    /// What a task has in hand after it was put there, and after another task's work was put or taken.
    pub fn each_task_has_its_own(&self)
        ensures own { (m : Member) (t : TaskNo) (work : Option Work) → work_of m t (with_work m t work self.now) ≡ work }
        ensures others { (m : Member) (t : TaskNo) (work : Option Work) (k : Member) (w : TaskNo) → IsOther m t k w → work_of k w (with_work m t work self.now) ≡ work_of k w self.now }
    {
        let _items = &self.items;
    }
}
