//! RESET SMDS: what the operator may make of access and status of a data set.
//!
//! - `moves`: the table of moves, and the call.
#![tactic(auto)]

mod moves;
#[cfg(test)]
mod tests;

pub use moves::{BadMove, reset};
