//! Which task of a member writes its unit's run, and which pages the member's units still need.

ghost use Rattle.std.specs.Prelude.{◌≡◌, ◌≤◌, length, find, drop};
ghost use Rattle.qsg_num.specs.Seats.{member_number};
ghost use Rattle.qsg_group.specs.Observers.{is_hardening};
ghost use Rattle.qsg_manager.specs.Latches.{task_numbers, latch_of, needed_by, earlier, first_needed};
ghost use Rattle.qsg_manager.specs.Storage.{manager_in, task_in};

use crate::managers::{Managers, Tasks};
use qsg_group::{Stage, Task};
use qsg_num::{Member, PageNo, TaskNo};

/// Whether a unit's run is being written.
fn is_hardening(stage: Stage) -> bool
    ensures { result ≡ is_hardening stage }
{
    matches!(stage, Stage::Hardening(_))
}

/// The least task of a member whose unit's run is being written: it has the latch of the member's log.
pub fn latch(managers: &Managers, member: Member) -> Option<TaskNo>
    requires { member_number member ≤ length managers.now }
    ensures { result ≡ latch_of (manager_in member managers.now).tasks }
{
    latch_in(&managers.manager(member).tasks)
}

fn latch_in(tasks: &Tasks) -> Option<TaskNo>
    ensures { result ≡ latch_of tasks.now }
{
    let numbers = [
        TaskNo::System,
        TaskNo::One,
        TaskNo::Two,
        TaskNo::Three,
        TaskNo::Four,
    ];
    numbers
        .iter()
        .copied()
        .find(|t| is_hardening(tasks.task(*t).stage))
}

/// The first page that a unit still needs.
fn needed_by(stage: Stage) -> Option<PageNo>
    ensures { result ≡ needed_by stage }
{
    match stage {
        Stage::Hardening(first) | Stage::Committed { first, .. } => Some(first),
        Stage::Open | Stage::BackedOut { .. } => None,
    }
}

fn earlier(a: Option<PageNo>, b: Option<PageNo>) -> Option<PageNo>
    ensures { result ≡ earlier a b }
{
    match (a, b) {
        (None, other) => other,
        (Some(page), None) => Some(page),
        (Some(page), Some(other)) => {
            if other.number < page.number {
                Some(other)
            } else {
                Some(page)
            }
        }
    }
}

/// The first page of its log that a unit of a member still needs: one that is being written, or that settles its marks
/// as committed. None where there is no such unit.
pub fn first_needed(managers: &Managers, member: Member) -> Option<PageNo>
    requires { member_number member ≤ length managers.now }
    ensures { result ≡ first_needed (manager_in member managers.now).tasks }
{
    first_in(managers.manager(member).tasks.as_slice())
}

fn first_in(tasks: &[Task]) -> Option<PageNo>
    ensures { result ≡ first_needed tasks.now }
{
    match tasks {
        [] => None,
        [task, others @ ..] => earlier(needed_by(task.stage), first_in(others)),
    }
}
