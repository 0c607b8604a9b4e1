//! The names, numbers, short lists and limits that every crate of the group speaks of.
//!
//! - `seats`: members, structures, tasks and priorities, which are few and counted.
//! - `ids`: incarnations, blocks, pages, entries, units of work and actors.
//! - `lists`: bytes, names and short lists, which contracts see as lists.
//! - `texts`: names of queues, and bodies, which keep their bounds.
//! - `pages`: the bodies of log pages.
//! - `words`: small choices that several crates share.
//! - `limits`: every limit, in one place.
//! - `laws`: what holds of these names for all values.
#![tactic(auto)]

mod ids;
mod laws;
mod limits;
mod lists;
mod pages;
mod seats;
mod texts;
mod words;

pub use ids::{Actor, Block, EntryId, Incarnation, PageNo, UnitName};
pub use laws::{
    ids_are_their_parts, later_epochs_are_above, members_are_their_numbers, names_are_their_parts,
    priorities_are_their_numbers, structures_are_their_numbers, tasks_are_their_numbers,
};
pub use limits::{
    ALL_BODIES, ALL_DEVICE_BYTES, DATA_SET_BLOCKS, DATA_SET_BYTES, DATA_SET_HEADER, DESCR_CHARS,
    DSGROUP_CHARS, ELEMENT_BYTES, ELEMENTS, EPOCHS, GROUP_NAME, INLINE_BODY, LINE_BYTES, LOG_PAGES,
    LONGEST_BODY, MEMBERS, PAGE_BODY, PAGE_BYTES, PAGE_NUMBERS, PRIORITIES, QUEUE_NAME, QUEUES,
    SCHEDULE_STEPS, SCRIPT_BYTES, SEQS, STRUCTURE_NAME, STRUCTURES, TASKS, UNIT_OPERATIONS,
};
pub use lists::{Blocks, Bytes, Name, Names};
pub use pages::{Page, Pages};
pub use seats::{Member, Priority, StructNo, TaskNo};
pub use texts::{Body, InlineBody, QueueName};
pub use words::{Delivery, Failed, LogWhy, RecoverKind, Rules, Wanted};
