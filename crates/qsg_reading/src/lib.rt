//! What a peer's walk over the log of a failed member has read stays true while others go on with that log, so that at
//! its end its reader knows of each unit of that incarnation whether its run is in the log.
//!
//! - `laws`: a walk's own steps, what others do to the log, and what a walk that has ended knows.
#![tactic(auto)]

mod laws;

pub use laws::{
    a_log_goes_on, a_new_walk_is_reading, a_walk_goes_on_reading, a_walk_has_read_written_pages,
    a_walk_is_reading_while_a_log_goes_on, a_walk_keeps_the_page_that_it_read_last,
    a_walk_that_has_ended_knows, runs_of_others_are_no_matter,
};
