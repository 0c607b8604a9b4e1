//! Where the body of a message goes: into its entry, or outside into the data set of the member that puts it.
//!
//! - `rule`: the offload rules of a structure.
#![tactic(auto)]

mod rule;
#[cfg(test)]
mod tests;

pub use rule::{Placed, place};
