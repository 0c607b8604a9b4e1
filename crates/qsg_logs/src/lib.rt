//! What members keep of their logs: each its device, its writer, and of each task how far the records of its unit
//! fill their pages.
//!
//! - `member_log`: the log of one member.
//! - `column`: the logs of a group, by the numbers of its members.
//! - `laws`: what is reserved is what open units need; which calls keep that; where a log
//!   goes on after a power cut.
#![tactic(auto)]

mod column;
mod laws;
mod member_log;
#[cfg(test)]
mod tests;

pub use column::Logs;
pub use laws::{
    a_begun_run_is_held, a_cut_log_goes_on_behind_its_pages, a_drawn_name_is_held,
    a_fall_back_is_held, a_reservation_is_held, a_run_fits, a_step_is_held,
    a_unit_that_settles_is_held, an_ended_unit_is_held, an_operation_is_held, no_run_is_in_hand,
    nothing_is_held_at_first, one_record_more_never_needs_less, reservations_are_few,
    the_last_step_is_held, what_is_reserved_fits,
};
pub use member_log::MemberLog;
