//! What holds of the plan of every script, so that a group can work it.
//!
//! - `laws`: a group can work the plan of a script.
#![tactic(auto)]

mod laws;

pub use laws::{plans_of_scripts_are_in_range, plans_of_scripts_are_workable};
