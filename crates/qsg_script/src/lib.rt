//! The reader of whole scripts: from bytes to a plan, or to the first fault.
//!
//! - `faults`: what is wrong with a script.
//! - `taking`: what a statement does to what was read.
//! - `reading`: the plan of a script, or its first fault.
//! - `laws`: what holds of all scripts.
#![tactic(auto)]

mod faults;
mod laws;
mod reading;
mod taking;
#[cfg(test)]
mod tests;

pub use faults::{ScriptError, ScriptFault};
pub use laws::{
    bytes_are_a_plan_or_at_fault, bytes_have_one_fault, bytes_make_one_plan,
    works_of_a_plan_stand_in_order,
};
pub use reading::read;
