//! What STOP does once no task of the member has anything in hand: the member is down, it saves the map of each of its data
//! sets that stands for the present epoch, and its storage is gone.
//!
//! - `blocks`: what it is in the machine of blocks.
//! - `laws`: what a step leaves, what a saved map is, and how many steps are left.
//! - `phases`: how far a STOP has come, and how a step ends.
//! - `steps`: what the steps do to the parts of the group.
//! - `work`: a STOP in progress.
#![tactic(auto)]

mod blocks;
mod laws;
mod phases;
mod steps;
#[cfg(test)]
mod tests;
mod work;

pub use blocks::{a_step_is_a_change_of_blocks, the_maps_of_a_stop_stay_true};
pub use laws::{
    a_begin_is_a_stop, a_map_is_saved, a_step_makes_one_call, a_stop_leaves_other_members,
    each_step_lowers_what_is_left,
};
pub use phases::{Phase, SaveCall, StopTurn};
pub use work::{StopWork, begin_stop};
