//! Space of data sets: which of their blocks are used, and which to take next.
//!
//! - `spaces`: the map of a data set's blocks.
//! - `marks`: counting, finding and marking blocks in a plain list.
//! - `laws`: what holds of all maps.
#![tactic(auto)]

mod laws;
mod marks;
mod spaces;
#[cfg(test)]
mod tests;

pub use laws::{
    free_blocks_are_counted, free_blocks_are_free, free_blocks_rise, marked_blocks_alone_change,
};
pub use spaces::{Map, NoRoom, TakeError};
