//! What blocks of data sets are in use, and by whom: a structure with the data sets of its members as a machine of
//! shared actions, and the laws that every action keeps.
//!
//! - `laws`: every change keeps the laws.
//! - `works`: what holds between the state and works in progress that read, write or count blocks.
//!
//! The machine stands in `specs/`: `State` (its parts, and who uses a block), `Changes` (the shared actions), `Laws`,
//! and `Works` (the works in progress).
#![tactic(auto)]

mod laws;
mod works;

pub use laws::{
    an_empty_structure_keeps_the_laws, changes_of_marks_keep_places,
    every_change_keeps_blocks_fitting, every_change_keeps_devices_telling,
    every_change_keeps_the_laws, every_change_leaves_bodies, no_block_has_two_users,
};
pub use works::{
    a_reader_reads_the_body, a_starter_counts_blocks, a_starter_shuts_the_gate,
    a_stopper_saves_its_map, a_writer_writes_the_body, every_change_keeps_readers,
    every_change_keeps_starters, every_change_keeps_stoppers, every_change_keeps_writers,
};
