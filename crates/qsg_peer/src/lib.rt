//! What a member's system task does for a member that failed: it reads that member's log from its low page on, and takes
//! the marks of the failed incarnation off as the log decides.
//!
//! - `laws`: the steps are actions of the machine.
//! - `phases`: how far the work has come, and how a step ends.
//! - `steps`: what the steps do to the parts of the group.
//! - `work`: the work in progress.
#![tactic(auto)]

mod laws;
mod phases;
mod steps;
#[cfg(test)]
mod tests;
mod work;

pub use laws::{
    a_mark_that_comes_off_is_a_peers_settle, a_peers_walk_follows_the_log,
    a_reader_that_read_the_log_knows, a_reader_that_read_the_page_in_hand_knows,
    a_step_leaves_the_rest, a_step_lowers_what_is_left, a_step_sweeps_the_structures,
    an_end_is_a_resolve, fewer_marks_leave_fewer_steps,
};
pub use phases::{FailedLife, NoMemory, PeerTurn, Phase, Stage};
pub use work::PeerWork;
