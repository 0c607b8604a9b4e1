//! What is counted of the incarnations of a group that failed: how many marks named each, and who took them off.
//!
//! - `tally`: of one incarnation.
//! - `tallies`: of all.
#![tactic(auto)]

mod tallies;
mod tally;

pub use tallies::Tallies;
pub use tally::Tally;
