//! What the actors of a group were answered is what happened: each answer fits its directive and the history.
//!
//! - `following`: what follows for units and messages.
//! - `laws`: the answers of a new group fit, and each step keeps that.
#![tactic(auto)]

mod following;
mod laws;

pub use following::{
    a_structure_at_rest_has_no_pending_entry, a_unit_belongs_to_one_commit,
    a_unit_has_what_was_pending, what_was_delivered_is_shown,
};
pub use laws::{
    a_crash_ends_one_incarnation, a_start_gives_the_next_incarnation, a_step_keeps_answers_fitting,
    a_step_that_wants_memory_keeps_answers_fitting, a_task_is_told_once_of_an_end_of_its_member,
    answers_of_a_new_group_fit,
};
