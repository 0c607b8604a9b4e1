//! What a member's system task does for the blocks of its own data sets: it forgets an entry that was removed and whose
//! body stood there, and makes its blocks free again.
//!
//! - `finding`: whether there is such an entry, and in which structure.
//! - `laws`: what a cleaning leaves, and how many steps it takes.
//! - `phases`: how far a cleaning has come, and how a step ends.
//! - `steps`: what the steps do to the parts of the group.
//! - `work`: a cleaning in progress.
#![tactic(auto)]

mod finding;
mod laws;
mod phases;
mod steps;
#[cfg(test)]
mod tests;
mod work;

pub use finding::{first_to_clean, has_cleaning};
pub use laws::{
    a_cleaning_is_to_do_where_an_entry_is_left, a_cleaning_may_go_on,
    a_forgotten_entry_frees_its_blocks, a_step_is_a_change, a_step_is_a_change_of_blocks,
    a_step_leaves_the_rest, each_step_lowers_what_is_left, only_an_entry_to_clean_goes,
};
pub use phases::{CleaningTurn, Phase};
pub use work::CleaningWork;
