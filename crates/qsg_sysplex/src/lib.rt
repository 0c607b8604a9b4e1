//! A group of queue managers that works its plan, step by step.
//!
//! - `starting`: the parts of a group before its first step.
//! - `actors`: the actors of a plan, in their order.
//! - `laws`: what a group keeps holds of a new one, and each step keeps it.
//! - `sysplex`: the group, which keeps its laws.
#![tactic(auto)]

mod actors;
mod laws;
mod starting;
mod sysplex;

pub use actors::actors_of;
pub use qsg_devices::MakeFault;
pub use qsg_step::Step;
pub use sysplex::Sysplex;
