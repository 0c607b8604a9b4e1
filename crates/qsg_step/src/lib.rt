//! What one step of an actor of a group does: what its next directive asks for, why it waits, and what the step leaves.
//!
//! - `asked`: what a directive asks for.
//! - `step`: how a step ended.
#![tactic(auto)]

mod asked;
mod step;

pub use asked::{Asked, asks_for};
pub use step::Step;
