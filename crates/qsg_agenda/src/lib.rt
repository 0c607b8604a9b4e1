//! What the actors of a group have still to do, and what they answered.
//!
//! - `courses`: the directives of one actor, with its answers.
//! - `agenda`: those of all actors.
#![tactic(auto)]

mod agenda;
mod courses;
#[cfg(test)]
mod tests;

pub use agenda::Agenda;
pub use courses::verb_of;
