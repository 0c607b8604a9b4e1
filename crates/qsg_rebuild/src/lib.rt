//! The map of one data set of a member that starts: the one that its header has saved for the structure's epoch, or else
//! one that is made from the entries that list its blocks. Then the header's gate is shut.
//!
//! - `laws`: what each step leaves, what the map is in the end, and how many steps there are.
//! - `phases`: how far a rebuild has come, and how a step ends.
//! - `steps`: what the steps do to the parts of the group.
//! - `work`: a rebuild in progress.
#![tactic(auto)]

mod laws;
mod phases;
mod steps;
#[cfg(test)]
mod tests;
mod work;

pub use laws::{
    a_map_that_is_made_is_exact, a_rebuild_makes_a_map, a_step_is_a_change_of_blocks,
    a_step_leaves_the_rest, every_change_keeps_rebuilds, every_step_lowers_what_is_left,
    listed_blocks_are_within,
};
pub use phases::{Phase, RebuildError, RebuildTurn};
pub use work::RebuildWork;
