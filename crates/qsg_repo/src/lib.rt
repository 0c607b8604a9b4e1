//! The group's repository: what all members share besides list structures and devices, and what outlives crashes
//! and structure loss. No record of it holds a message.
//!
//! - `repository`: the repository and its calls.
//! - `notes`: what is kept of the last backup of a structure.
//! - `lives`: the incarnations that members were given, and what became of them.
//! - `statuses`: access and status of a data set, and what calls make of them.
//! - `needs`: the pages of a log that may still be needed.
//! - `laws`: what holds of all repositories.
#![tactic(auto)]

mod laws;
mod lives;
mod needs;
mod notes;
mod repository;
mod statuses;
#[cfg(test)]
mod tests;

pub use laws::{keep_is_the_least_page, keep_never_falls};
pub use lives::{Fate, Life};
pub use needs::{Hold, Holds};
pub use notes::Note;
pub use repository::Repo;
pub use statuses::{Access, DataSets, Smds, Status};
