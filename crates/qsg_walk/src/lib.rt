//! A walk over a log from a page on: which page it reads next, the page that it read last, and the reader that is fed
//! the pages.
//!
//! A walk ends at the first page that isn't there, or once it has come round the log. It keeps the page that it read
//! last, and feeds it at its next step, so that a bad page ends it one step after the read. It calls no device: who
//! walks reads the page and hands it over.
//!
//! - `laws`: what a walk has read of a log.
//! - `walk`: the walk.
#![tactic(auto)]

mod laws;
mod walk;

pub use laws::{
    a_walk_follows_its_log, a_walk_that_has_ended_read_the_log,
    a_walk_that_has_ended_read_the_page_in_hand,
};
pub use walk::{KeptPage, Walk};
