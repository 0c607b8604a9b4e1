//! What a group that works its plan keeps between any two steps of its actors.
//!
//! - `laws`: a new group is sound, and each step keeps a group so.
#![tactic(auto)]

mod laws;

pub use laws::{
    a_new_group_is_sound, a_sound_group_may_move, a_step_keeps_a_group_sound,
    a_step_that_wants_memory_keeps_a_group_sound,
};
