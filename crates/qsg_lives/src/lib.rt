//! What the end of a member, its start, and the work of its peers keep of a group: it stays steady, the tasks of members
//! that are up stay as they stood, and marks of an incarnation that is over only come off.
//!
//! - `keeping`: what leaves a group steady, and which tasks it spares.
//! - `marking`: incarnations that are over, and their marks.
//! - `setting`: which marks steps set, which ids entries have, and what stays empty.
#![tactic(auto)]

mod keeping;
mod marking;
mod setting;

pub use keeping::{
    a_crash_keeps_the_group_steady, a_mark_that_comes_off_keeps_the_group_steady,
    a_peers_step_keeps_the_group_steady, a_read_keeps_the_group_steady,
    a_resolve_keeps_the_group_steady, a_start_keeps_the_group_steady,
    a_step_of_a_start_keeps_the_group_steady, what_logs_tell_of_a_unit_is_one,
};
pub use marking::{
    a_mark_that_comes_off_leaves_the_others, a_peers_step_takes_its_mark_off,
    a_request_leaves_the_marks_of_the_dead, a_unit_in_hand_is_of_no_incarnation_that_is_over,
    a_unit_leaves_the_marks_of_others, an_incarnation_that_is_over_stays_over,
    the_same_structures_have_the_same_marks,
};
pub use setting::{
    a_request_sets_one_mark_at_most, an_incarnation_without_marks_gets_none,
    entries_keep_ids_above_0, marks_are_of_incarnations_that_were_given, other_steps_set_no_marks,
    what_isnt_active_stays_empty,
};
