//! The system tasks of a group's members: the work that each has in hand, the incarnations that it has given up, and its
//! answers.
//!
//! - `peer`: the system task of one member.
//! - `peers`: those of all.
#![tactic(auto)]

mod peer;
mod peers;
#[cfg(test)]
mod tests;

pub use peers::Peers;
