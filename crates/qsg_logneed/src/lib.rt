//! How many pages of a log the records of a run take, known after each record without cutting any.
//!
//! - `counting`: how far records fill the pages of their run.
//! - `lengths`: the bytes of a unit's records.
//! - `laws`: what holds of all runs.
#![tactic(auto)]

mod counting;
mod laws;
mod lengths;

pub use counting::{Filling, LONGEST_RECORD, RECORD_PAGES};
pub use laws::{
    one_record_more, pages_are_those_of_the_cut, pages_of_records_are_few, records_are_not_longer,
    records_never_lower_the_pages, some_record_takes_a_page,
};
pub use lengths::{commit_bytes, got_bytes, put_bytes};

#[cfg(test)]
mod tests;
