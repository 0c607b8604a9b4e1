//! A group of queue managers as a machine of shared actions, and the laws that every action keeps.
//!
//! - `tasks`: the unit of work that a task holds.
//! - `laws`: every change keeps the laws, and what follows from them.
//!
//! The machine stands in `specs/`: `Group` (its parts), `Changes` (the shared actions), `Laws`, and `Observers` (what
//! laws see of a group).
#![tactic(auto)]

mod laws;
mod tasks;

pub use laws::{
    a_group_at_rest_has_no_pending_entries, a_log_tells_of_marks_from_its_low_page,
    a_safe_unit_outlives_its_member, a_settle_leaves_an_inactive_structure,
    a_unit_that_is_cut_off_is_undone, an_active_structure_holds_what_the_history_holds,
    every_change_keeps_the_laws, every_group_that_is_reached_keeps_the_laws,
    the_empty_group_keeps_the_laws,
};
pub use tasks::{Claim, Claims, Stage, Task};
