//! Runs a group to its end: one step after the other, each of the actor whom a chooser picks, until no actor's step
//! moves.
//!
//! - `group`: a group whose actors make steps.
//! - `places`: where an actor stands among others.
//! - `tries`: the first of several actors whose step moves.
//! - `run`: a whole run.
#![tactic(auto)]

mod group;
mod places;
mod run;
mod tries;

pub use group::Group;
pub use run::drive;
