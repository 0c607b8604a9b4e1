//! The group of queue managers over its parts.
//!
//! - `actions`: actions on structures and on what members keep are changes of the machine.
//! - `getting`: the action that takes the entry of a get; `taken` is what it is given.
//! - `latches`: which task writes its unit's run, and which pages units still need.
//! - `managers`: what members keep in their own storage.
//! - `putting`: the action that writes the entry of a put; `writing` does it on a task.
//! - `settling`: the claims that a unit settles once it is decided.
//! - `structures`: the list structures of a group, by their numbers.
//! - `ungetting`: the actions that undo a unit's last operation, a get, and that forget a removed entry.
//! - `units`: the actions by which the unit of a task begins, is decided, settles its marks, and ends.
//! - `views`: what the commands of a list structure do in the machine of the group.
#![tactic(auto)]

mod actions;
mod getting;
mod latches;
mod managers;
mod putting;
mod settling;
mod structures;
mod taken;
#[cfg(test)]
mod tests;
mod ungetting;
mod units;
mod views;
mod writing;

pub use actions::{
    a_backout_is_a_change, a_begin_is_a_change, a_draw_is_a_change, a_dropped_get_is_a_change,
    a_finish_is_a_change, a_forget_is_a_change, a_get_is_a_change, a_harden_is_a_change,
    a_low_page_is_a_change, a_settle_is_a_change, a_write_is_a_put, an_unget_is_a_change,
    shelves_are_in_order, tasks_without_names_stay_idle,
};
pub use getting::get_entry;
pub use latches::{first_needed, latch};
pub use managers::{Manager, Managers, Tasks, idle_task};
pub use putting::put_entry;
pub use settling::{next_claim, settle_next};
pub use structures::{MarkedEntry, Structures};
pub use taken::{GetRefused, LONGEST_LIST, Room, Taken, TakenBody};
pub use ungetting::{drop_last, forget_entry, unget_entry};
pub use units::{back_out_unit, begin_unit, draw_name, finish_unit, harden_unit, settle_unit};
pub use views::{a_settle_settles, a_take_marks, a_write_adds, an_entry_is_found};
pub use writing::{NewEntry, PutRefused, write_entry};
