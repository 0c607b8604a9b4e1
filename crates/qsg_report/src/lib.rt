//! The texts that the program prints of a group: the report of a run, the definitions, and the summary of a run. Each is
//! made whole before a byte of it is written. An error is want of memory.
//!
//! - `shown`: what a report tells of the state of a group.
//! - `lines`: the whole report.
//! - `answered`: what actors answered, and what happened.
//! - `shared`: what all members share: failures, structures, entries, queues.
//! - `kept`: what members keep, and what actors wait for.
//! - `check`: the definitions of a group.
//! - `totals`: the summary of a run.
//! - `words`: texts with names and sizes in them.
#![tactic(auto)]

mod answered;
mod check;
mod kept;
mod lines;
mod shared;
mod shown;
#[cfg(test)]
mod tests;
mod totals;
mod words;

pub use check::definitions;
pub use lines::report;
pub use shown::{
    Shown, ShownDataSet, ShownFailure, ShownMember, ShownQueue, ShownStructure, ShownWait,
};
pub use totals::summary;
