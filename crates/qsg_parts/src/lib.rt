//! What a group of queue managers owns. Each step of a request works on these parts.
//!
//! - `parts`: list structures, members' storage and logs, the repository, the objects, and the history.
#![tactic(auto)]

mod parts;

pub use parts::Parts;
