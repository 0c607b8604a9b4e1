//! What a group keeps between any two steps, whoever made them: what is reserved, drawn and counted, and over logs that
//! tell their bytes the machine's laws, with the units that it sees in them. Each action of a task keeps it, and leaves
//! all other tasks as they stood.
//!
//! - `giving`: what it gives to those who make the next step.
//! - `keeping`: what each action of a task keeps.
#![tactic(auto)]

mod giving;
mod keeping;

pub use giving::{
    a_mark_may_come_off, a_member_that_is_down_is_idle, a_page_may_be_written, a_run_may_be_begun,
    a_steady_group_is_lawful, a_unit_in_hand_is_live, an_unresolved_incarnation_has_ended,
    members_have_logs, names_and_ids_are_left, operations_have_claims, pages_may_be_reserved,
};
pub use keeping::{
    a_backout_keeps_the_group_steady, a_begin_keeps_the_group_steady,
    a_draw_keeps_the_group_steady, a_failed_step_keeps_the_group_steady,
    a_fall_back_keeps_the_group_steady, a_get_keeps_the_group_steady,
    a_harden_keeps_the_group_steady, a_low_page_keeps_the_group_steady, a_new_group_is_steady,
    a_page_step_keeps_the_group_steady, a_put_keeps_the_group_steady,
    a_reservation_keeps_the_group_steady, a_settle_keeps_the_group_steady,
    an_end_keeps_the_group_steady, counts_may_rise, more_room_keeps_the_group_steady,
};
