//! Data sets for offloaded bodies: blocks of bytes on a device, behind a header in which the map of used blocks
//! is saved.
//!
//! - `data_set`: a data set and its calls, each of which is one device call.
//! - `header`: the spelling of a saved map.
//! - `laws`: what the steps that save a map leave, and what a power cut between them leaves.
#![tactic(auto)]

mod data_set;
mod header;
mod laws;
#[cfg(test)]
mod tests;

pub use data_set::{DataSet, LoadError, Loaded};
pub use laws::{
    a_map_gets_ready, a_ready_map_stays, a_shut_gate_stays, a_spelling_is_of_one_map,
    the_gate_gets_safe,
};
