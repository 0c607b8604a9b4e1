//! What a report shows of a group, part by part.
//!
//! - `copies`: copies of entries.
//! - `data_sets`: a data set, as it is shown.
//! - `failures`: the incarnations that failed.
//! - `members`: what members keep, by their numbers.
//! - `showing`: a member, a structure and a queue, as they are shown.
#![tactic(auto)]

mod copies;
mod data_sets;
mod failures;
mod members;
mod showing;

pub use copies::copy_entries;
pub use data_sets::show_data_set;
pub use failures::show_failures;
pub use members::{incarnation_of, pages_of};
pub use showing::{show_member, show_queue, show_structure};
