//! What the actors of a group ask for, and what they are answered.
//!
//! - `words`: the requests of a task.
//! - `replies`: how a request ended, and why a step waits.
//! - `transcript`: the answers of an actor, with room for those to come.
//! - `transcripts`: the answers of all actors.
#![tactic(auto)]

mod replies;
#[cfg(test)]
mod tests;
mod transcript;
mod transcripts;
mod words;

pub use replies::{Cause, Reason, Reply, Short, Turn};
pub use transcript::{Answer, Transcript, Verb};
pub use transcripts::Transcripts;
pub use words::{PutWords, Request};
