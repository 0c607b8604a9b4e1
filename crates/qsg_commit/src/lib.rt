//! The end of a unit of work. COMMIT writes the unit's run to its member's log, adds the unit to the history once the
//! run is safe, and takes its marks off; BACKOUT gives the unit up and takes its marks off.
//!
//! - `phases`: how far a request has come, and why a step isn't made.
//! - `committing`: the steps of a COMMIT up to where its unit is in the history.
//! - `ending`: the marks that come off, and the end of the unit.
//! - `laws`: the steps are actions of the machine.
//! - `work`: a COMMIT or BACKOUT in progress.
#![tactic(auto)]

mod committing;
mod ending;
mod laws;
mod phases;
#[cfg(test)]
mod tests;
mod work;

pub use laws::{
    a_failed_page_leaves_all, a_latch_is_a_begin, a_latched_run_is_told,
    a_low_page_that_is_told_is_published, a_mark_that_comes_off_is_a_settle,
    a_page_leaves_the_group, a_page_leaves_what_is_told, a_step_has_what_it_needs,
    a_step_keeps_what_holds, an_end_is_a_finish, giving_up_is_a_backout,
    the_last_mark_lets_a_unit_end, the_last_page_is_a_harden,
};
pub use phases::{Phase, StepError, Taken};
pub use work::CommitWork;
