//! The top call: the words of a command line and the bytes of a script in, the bytes of a report out.
//!
//! - `top`: the call, and what it promises.
//! - `status`: how it ends.
//! - `outside`: reading and writing to the end.
//! - `dues`: the status and the text that are due.
//! - `replays`: the replay of a plan, from its new group to the report.
//! - `groups`: a group as the drive steps it.
//! - `shows`: what the report shows of a group.
//! - `data_sets`: what it shows of the group's data sets.
#![tactic(auto)]

mod data_sets;
mod dues;
mod groups;
mod outside;
mod replays;
mod shows;
mod status;
mod top;

pub use status::Status;
pub use top::{no_memory, replay};

#[cfg(test)]
mod tests;
