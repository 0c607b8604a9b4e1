//! What a script defines and asks for: the objects of a group, its plan, and the directives of its actors.
//!
//! - `definitions`: what DEFINE says of a structure and of a queue.
//! - `registry`: the objects of a group, kept by name in the order in which they were made.
//! - `directives`: what a task or the operator asks for.
//! - `plans`: members, sizes, works and schedule, and the plan of them all.
#![tactic(auto)]

mod definitions;
mod directives;
mod plans;
mod registry;

pub use definitions::{CfstructDef, Definition, QlocalDef};
pub use directives::{BodyWord, Directive, Directives};
pub use plans::{Actors, MemberDef, MemberDefs, Plan, Size, Sizes, Turns, Works};
pub use registry::{Cfstruct, ObjectError, ObjectFault, Objects, Queue};
