//! The texts of answers. Each call appends its text to what stands already, so that the time is linear in the bytes of
//! the whole. An error is want of memory: what stands then is of no use.
//!
//! - `texts`: numbers, bytes, ids and bodies.
//! - `labels`: names of members and structures, and what is named by them.
//! - `answers`: how requests ended, in lines that are numbered.
//! - `waits`: why an actor's step waits.
#![tactic(auto)]

mod answers;
mod labels;
#[cfg(test)]
mod tests;
mod texts;
mod waits;

pub use answers::{push_answer, push_answers, push_kind};
pub use labels::{Labels, push_incarnation, push_member, push_state, push_structure, push_unit};
pub use texts::{
    push_body, push_counted, push_flag, push_id, push_identifier, push_number, push_text,
};
pub use waits::{push_actor, push_cause};
