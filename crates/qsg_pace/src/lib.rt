//! Every run of a group that works its plan ends: a number that each step lowers, whoever makes it.
//!
//! - `laws`: what each step makes of the number.
#![tactic(auto)]

mod laws;

pub use laws::{
    a_request_in_progress_is_unanswered, a_step_never_leaves_more,
    a_step_that_is_not_made_leaves_as_many, each_step_that_moves_leaves_less,
};
