//! The requests in progress: what a task works on, whatever its kind, and the work in hand of each task of a group.
//!
//! - `work`: a request in progress.
//! - `works`: the work in hand of each task.
#![tactic(auto)]

#[cfg(test)]
mod tests;
mod work;
mod works;

pub use qsg_commit::StepError;
pub use work::Work;
pub use works::Works;
