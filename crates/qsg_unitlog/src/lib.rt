//! What a member's log tells of its units of work. A unit is committed exactly where its run, the pages that its
//! records are cut into, is whole in the log.
//!
//! - `cutting`: the pages of a unit's run.
//! - `power`: whether a power cut leaves the page in hand whole.
//! - `laws`: what the steps of the log's writer, and power cuts, make of what the log tells.
#![tactic(auto)]

mod cutting;
mod laws;
mod power;

pub use cutting::{cut_unit, structures_of};
pub use laws::{
    a_cut_drops_or_keeps_the_run_in_hand, a_cut_leaves_an_idle_log,
    a_failed_step_leaves_what_is_told, a_log_tells_of_its_runs, a_new_log_tells_of_no_run,
    a_reader_finds_the_units_of_the_runs, a_run_is_taken_in_hand, a_step_leaves_what_is_told,
    keep_rises_behind_all_runs, keep_rises_to_a_run, reservations_leave_what_is_told,
    the_run_in_hand_begins_in_the_log,
};
pub use power::power_cut;

#[cfg(test)]
mod tests;
