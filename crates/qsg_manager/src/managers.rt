//! What members keep in their own storage.

ghost use Rattle.std.specs.Prelude.{◌≡◌, ◌≤◌, ◌<◌, ◌+◌, ◌^◌, ℕ, List, IfOk, length, replicate};
ghost use Rattle.qsg_group.specs.Group.{idle};

use qsg_group::{Claims, Stage, Task};
use qsg_model::Ops;
use qsg_num::{Incarnation, Member, TaskNo, UnitName};
use std::alloc::{AllocError, Global};
use std::marker::Model;
use std::mem;

/// The tasks of a member: its system task and four application tasks, by their numbers.
#[derive(Drop)]
pub struct Tasks {
    items: Vec<Task>,
}

impl Model for Tasks {
    ghost use Rattle.std.specs.Prelude.{List, ◌≡◌, length};
    ghost use Rattle.qsg_group.specs.declared.tasks.Task.{Task};

    ghost Value = { List Task };

    ghost view = { λ t. t.items.items };

    ghost invariant = { λ t. length t.items.items ≡ 5 };
}

/// A task that holds nothing. Takes no memory.
pub fn idle_task(alloc: Global) -> Task
    ensures { result ≡ idle }
{
    Task {
        unit: None,
        ops: Ops::from_vec(Vec::new(alloc)),
        claims: Claims::from_vec(Vec::new(alloc)),
        stage: Stage::Open,
    }
}

impl Tasks {
    ghost use Rattle.qsg_group.specs.declared.tasks.Task.{Task};
    ghost use Rattle.qsg_manager.specs.Storage.{task_in, with_task_in};

    /// Five tasks that hold nothing.
    pub fn new(alloc: Global) -> Result<Tasks, AllocError>
        ensures { IfOk result (λ tasks. tasks ≡ replicate 5 idle) }
    {
        let mut items = Vec::with_capacity(alloc, 5)?;
        items.push(idle_task(alloc))?;
        items.push(idle_task(alloc))?;
        items.push(idle_task(alloc))?;
        items.push(idle_task(alloc))?;
        items.push(idle_task(alloc))?;
        Ok(Tasks { items })
    }

    /// The tasks, in order of their numbers.
    pub fn as_slice(&self) -> &[Task]
        ensures { result.now ≡ self.now }
    {
        self.items.as_slice()
    }

    /// A task.
    pub fn task(&self, number: TaskNo) -> &Task
        ensures { result.now ≡ task_in number self.now }
    {
        &self.items[usize::from(number.get())]
    }

    /// Puts a task in place of another, which it gives.
    pub fn replace(&mut self, number: TaskNo, task: Task) -> Task
        ensures given { result ≡ task_in number self.old }
        ensures replaced { self.new ≡ with_task_in number task self.old }
    {
        mem::replace(&mut self.items[usize::from(number.get())], task)
    }

    /// Ends all tasks: each holds nothing then. Takes no memory.
    pub fn clear(&mut self, alloc: Global)
        ensures { self.new ≡ replicate 5 idle }
    {
        self.items[0] = idle_task(alloc);
        self.items[1] = idle_task(alloc);
        self.items[2] = idle_task(alloc);
        self.items[3] = idle_task(alloc);
        self.items[4] = idle_task(alloc);
    }

    /// Sets the stage of a task's unit.
    pub fn set_stage(&mut self, number: TaskNo, stage: Stage)
        ensures { self.new ≡ with_task_in number (record (task_in number self.old) { stage = stage }) self.old }
    {
        self.items[usize::from(number.get())].stage = stage;
    }
}

/// What a member keeps in its own storage.
#[derive(Drop)]
pub struct Manager {
    pub up: bool,
    /// Its last incarnation.
    pub incarnation: Incarnation,
    /// The number of the next unit of this incarnation.
    pub next: u32,
    pub tasks: Tasks,
}

/// The members of a group, by their numbers.
#[derive(Drop)]
pub struct Managers {
    items: Vec<Manager>,
}

impl Model for Managers {
    ghost use Rattle.std.specs.Prelude.{List};
    ghost use Rattle.qsg_manager.specs.declared.managers.Manager.{Manager};

    ghost Value = { List Manager };

    ghost view = { λ m. m.items.items };
}

impl Managers {
    ghost use Rattle.std.specs.Prelude.{Some};
    ghost use Rattle.qsg_num.specs.Seats.{member_number};
    ghost use Rattle.qsg_manager.specs.Storage.{task_at, manager_in, with_task, with_drawn, next_name};
    ghost use Rattle.qsg_manager.specs.Units.{with_stage};
    ghost use Rattle.qsg_manager.specs.Seats.{with_down, with_started};

    /// Those of a `Vec`, in order of their numbers. Takes no memory.
    pub fn from_vec(items: Vec<Manager>) -> Managers
        ensures { result ≡ items.items }
    {
        Managers { items }
    }

    /// How many there are.
    pub fn len(&self) -> usize
        ensures { result ≡ length self.now }
    {
        self.items.len()
    }

    /// A member.
    pub fn manager(&self, member: Member) -> &Manager
        requires within { member_number member ≤ length self.now }
        ensures { result.now ≡ manager_in member self.now }
    {
        &self.items[member.index()]
    }

    /// A task of a member.
    pub fn task(&self, member: Member, number: TaskNo) -> &Task
        requires within { member_number member ≤ length self.now }
        ensures { result.now ≡ task_at member number self.now }
    {
        self.items[member.index()].tasks.task(number)
    }

    /// The name that a task of a member holds, if it does.
    pub fn name(&self, member: Member, number: TaskNo) -> Option<UnitName>
        requires within { member_number member ≤ length self.now }
        ensures { result ≡ (task_at member number self.now).unit }
    {
        self.task(member, number).unit
    }

    /// How many operations the unit of a task has.
    pub fn operations(&self, member: Member, number: TaskNo) -> usize
        requires within { member_number member ≤ length self.now }
        ensures { result ≡ length (task_at member number self.now).ops }
    {
        self.task(member, number).ops.len()
    }

    /// Puts a task of a member in place of another, which it gives.
    pub fn replace_task(&mut self, member: Member, number: TaskNo, task: Task) -> Task
        requires within { member_number member ≤ length self.old }
        ensures given { result ≡ task_at member number self.old }
        ensures replaced { self.new ≡ with_task member number task self.old }
    {
        self.items[member.index()].tasks.replace(number, task)
    }

    /// Sets the stage of a unit.
    pub fn set_stage(&mut self, member: Member, number: TaskNo, stage: Stage)
        requires within { member_number member ≤ length self.old }
        ensures { self.new ≡ with_stage member number stage self.old }
    {
        self.items[member.index()].tasks.set_stage(number, stage);
    }

    /// Draws the next name of a member's unit.
    pub fn draw(&mut self, member: Member) -> UnitName
        requires within { member_number member ≤ length self.old }
        requires left { (manager_in member self.old).next + 1 < 2 ^ 32 }
        ensures name { result ≡ next_name member self.old }
        ensures drawn { self.new ≡ with_drawn member self.old }
    {
        let manager = &mut self.items[member.index()];
        let seq = manager.next;
        manager.next = seq + 1;
        UnitName {
            member,
            incarnation: manager.incarnation,
            seq,
        }
    }

    /// A member ends: it is down, and its tasks hold nothing. Takes no memory.
    pub fn end_member(&mut self, alloc: Global, member: Member)
        requires within { member_number member ≤ length self.old }
        ensures { self.new ≡ with_down member self.old }
    {
        let manager = &mut self.items[member.index()];
        manager.up = false;
        manager.tasks.clear(alloc);
    }

    /// A member is up in an incarnation, and has drawn none of its units' names.
    pub fn start_member(&mut self, member: Member, incarnation: Incarnation)
        requires within { member_number member ≤ length self.old }
        ensures { self.new ≡ with_started member incarnation self.old }
    {
        let manager = &mut self.items[member.index()];
        manager.up = true;
        manager.incarnation = incarnation;
        manager.next = 1;
    }
}
