//! The pages of a log that may still be needed.

ghost use Rattle.std.specs.Prelude.{◌≡◌, ℕ, ◌≤◌, slice_index_or, slice_set, None};
ghost use Rattle.qsg_num.specs.Seats.{task_number};
ghost use Rattle.std.specs.List.{flat_map};
ghost use Rattle.qsg_repo.specs.Tables.{low_in, member_place, tasks_of};
ghost use Rattle.qsg_repo.specs.Keeping.{least, held_pages, pages_held, noted_page};

use crate::notes::Note;
use qsg_num::{Member, PageNo, TaskNo};

/// The low pages that a task holds, if it holds any.
pub type Hold = Option<[PageNo; 8]>;

/// What the tasks of a member hold, by their numbers.
#[derive(Clone, Copy, Debug, PartialEq, Eq)]
pub struct Holds {
    pub tasks: [Hold; 5],
}

/// The page of a member in low pages.
fn low_in(lows: &[PageNo; 8], member: Member) -> PageNo
    ensures { result ≡ low_in member lows.now }
{
    lows[member.index()]
}

/// The page from which RECOVER with this note reads the member's log: 0 without a note.
pub fn noted_page(note: Option<Note>, member: Member) -> u32
    ensures { result ≡ noted_page member note }
{
    match note {
        Some(note) => low_in(&note.low, member).number,
        None => 0,
    }
}

/// Sets what a task holds.
fn set_task(tasks: &mut [Hold; 5], task: TaskNo, hold: Hold)
    ensures after { tasks.new ≡ slice_set tasks.old (task_number task) hold }
    ensures found { slice_index_or tasks.new (task_number task) None ≡ hold }
{
    tasks[task.get() as usize] = hold;
}

/// Sets what a task of a member holds.
pub fn set_hold(holds: &mut [Holds; 8], member: Member, task: TaskNo, hold: Hold)
    ensures after { holds.new ≡ slice_set holds.old (member_place member) (record { tasks = slice_set (tasks_of member holds.old) (task_number task) hold }) }
    ensures found { slice_index_or (tasks_of member holds.new) (task_number task) None ≡ hold }
{
    set_task(&mut holds[member.index()].tasks, task, hold);
}

/// The least of a page and the member's pages in holds.
fn least_held(holds: &[Hold; 5], member: Member, first: u32) -> u32
    ensures { result ≡ least first (held_pages member holds.now) }
{
    let mut least = first;
    for hold in holds {
        if let Some(lows) = hold {
            least = least.min(low_in(lows, member).number);
        }
    }
    least
}

/// The same over the holds of all members.
pub fn least_held_by_all(holds: &[Holds; 8], member: Member, first: u32) -> u32
    ensures { result ≡ least first (flat_map (pages_held member) holds.now) }
{
    let mut least = first;
    for row in holds {
        least = least_held(&row.tasks, member, least);
    }
    least
}
