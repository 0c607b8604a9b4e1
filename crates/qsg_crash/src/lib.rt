//! The crash of a member, in one step: the power of its log and its data sets is cut, its storage is gone, and the
//! repository is told.
//!
//! - `crashing`: the step.
//! - `laws`: what it leaves of all other members.
#![tactic(auto)]

mod crashing;
mod laws;
#[cfg(test)]
mod tests;

pub use crashing::crash;
pub use laws::a_crash_leaves_other_members;
