//! A PUT, in three steps: the check, which reserves pages of the log; the connection; and the entry.
//!
//! - `checking`: what a put makes of its words, and why it is refused.
//! - `laws`: what follows from what each step does.
//! - `messages`: the message that a put makes, and the entry that holds it.
//! - `phases`: how far a put has come.
//! - `steps`: what each step does to the parts of the group.
//! - `work`: a put in progress.
#![tactic(auto)]

mod checking;
mod laws;
mod messages;
mod phases;
mod steps;
#[cfg(test)]
mod tests;
mod work;

pub use checking::{Terms, check};
pub use laws::{
    a_put_leaves_the_rest, a_step_of_a_put_is_a_change, names_stay_of_their_members,
    terms_are_those_of_the_words_or_the_queue, the_message_is_the_one_that_was_asked_for,
};
pub use messages::{entry_of, logged};
pub use phases::Phase;
pub use work::PutWork;
