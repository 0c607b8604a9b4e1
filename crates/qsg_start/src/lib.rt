//! What START does for a member that is down: it reads the member's log from its low page on, gives the member its next
//! incarnation, and lets its log go on at the first page that isn't there.
//!
//! - `laws`: how the walk over the log goes with it, and how many steps are left.
//! - `phases`: how far a START has come, and how a step ends.
//! - `steps`: what the steps do to the parts of the group.
//! - `work`: a START in progress.
#![tactic(auto)]

mod laws;
mod phases;
mod steps;
#[cfg(test)]
mod tests;
mod work;

pub use laws::{
    a_start_leaves_other_members, a_starts_walk_follows_the_log, every_step_lowers_what_is_left,
    only_the_last_step_starts, the_walk_ends_at_the_next_page,
};
pub use phases::{NoMemory, Phase, StartTurn};
pub use work::StartWork;
