//! What members keep of their data sets: each its device, the map of its used blocks, and the blocks that each task has
//! taken for a body that no entry lists yet.
//!
//! - `member_data_set`: the data set of one member for one structure.
//! - `table`: those of a group, by the numbers of members and structures.
//! - `laws`: what holds of all of them.
#![tactic(auto)]

mod laws;
mod member_data_set;
mod table;
#[cfg(test)]
mod tests;

pub use laws::{
    a_loaded_map_stands, claimed_blocks_are_used, data_sets_stay, each_call_keeps_a_data_set,
    each_data_set_of_a_member_is_cut, each_data_set_of_a_member_is_emptied, freed_blocks_are_free,
    given_blocks_are_free, nothing_is_kept_through_a_cut, one_data_set_changes, one_hand_changes,
    taken_blocks_are_used,
};
pub use member_data_set::{Found, Hand, Hands, KeptMap, MemberDataSet};
pub use table::{DataSets, MemberDataSets};
