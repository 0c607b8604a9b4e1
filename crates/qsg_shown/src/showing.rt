//! A member, a structure and a queue, as they are shown.

ghost use Rattle.std.specs.Prelude.{◌≡◌, ◌<◌, ◌^◌, IfOk};
ghost use Rattle.qsg_lists.specs.Entries.{counts_in, depth_of};
ghost use Rattle.qsg_lists.specs.Marks.{is_cleanup};
ghost use Rattle.qsg_shown.specs.Showing.{seen};

use crate::copies::copy_entries;
use qsg_lists::{Entry, Mark, State};
use qsg_num::{Incarnation, Name, QueueName};
use qsg_objects::MemberDef;
use qsg_report::{ShownMember, ShownQueue, ShownStructure};
use std::alloc::{AllocError, Global};

/// A member: whether it makes steps, its last incarnation, and how many pages its log has.
pub fn show_member(
    member: &MemberDef,
    up: bool,
    last: Incarnation,
    pages: u32,
) -> Result<ShownMember, AllocError>
    ensures { IfOk result (λ m. m ≡ record { name = member.now.name; up = up; last = last; pages = pages; size = member.now.log_pages }) }
{
    Ok(ShownMember {
        name: member.name.clone()?,
        up,
        last,
        pages,
        size: member.log_pages,
    })
}

fn is_cleanup(mark: Mark) -> bool
    ensures { result ≡ is_cleanup mark }
{
    matches!(mark, Mark::Cleanup)
}

/// Whether an entry is a message of a queue.
fn counts_in(queue: &str, entry: &Entry) -> bool
    ensures { result ≡ counts_in queue.now entry.now }
{
    !is_cleanup(entry.mark) && entry.head.queue.is(queue)
}

/// How many of these entries are messages of a queue.
fn depth_of(queue: &str, entries: &[Entry]) -> usize
    ensures { result ≡ depth_of queue.now entries.now }
{
    entries.iter().filter(|e| counts_in(queue, e)).count()
}

/// A structure of a name: its state and epoch, the elements in use and those in all, and its entries.
pub fn show_structure(
    alloc: Global,
    name: &Name,
    state: (State, u32),
    size: (u32, u32),
    entries: &[Entry],
) -> Result<ShownStructure, AllocError>
    ensures { IfOk result (λ s. seen s ≡ record { name = name.now; state = state.0; epoch = state.1; used = size.0; capacity = size.1; entries = entries.now }) }
{
    Ok(ShownStructure {
        name: name.clone()?,
        state: state.0,
        epoch: state.1,
        used: size.0,
        capacity: size.1,
        entries: copy_entries(alloc, entries)?,
    })
}

/// A queue, by the entries of its structure.
pub fn show_queue(queue: &QueueName, entries: &[Entry]) -> Result<ShownQueue, AllocError>
    requires few { depth_of queue.now entries.now < 2 ^ 32 }
    ensures { IfOk result (λ q. q ≡ record { name = queue.now; depth = depth_of queue.now entries.now }) }
{
    let name = queue.clone()?;
    let depth = depth_of(name.as_str(), entries) as u32;
    Ok(ShownQueue { name, depth })
}
