//! Reading a log page by page: its records, and which units are committed.
//!
//! - `reader`: a reader of a log, which is fed its pages.
//! - `joining`: joining the pieces of a page.
//! - `commits`: the units whose commits were read.
//! - `fault`: why a page isn't read.
//! - `laws`: what holds of the records of pages and of logs, for all of them.
#![tactic(auto)]

mod commits;
mod fault;
mod joining;
mod laws;
mod reader;

pub use fault::FeedError;
pub use laws::{
    a_log_has_one_list_of_records, a_run_has_its_records, laps_are_no_part_of_records,
    pages_have_one_list_of_records, reading_gives_the_pages_of_a_log, records_after_a_power_cut,
    records_of_pages_behind_others, the_first_pages_of_a_run_lack_its_last_record,
};
pub use reader::Reader;

#[cfg(test)]
mod tests;
