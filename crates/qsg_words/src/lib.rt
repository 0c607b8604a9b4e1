//! The words of the command line.
//!
//! - `command`: what the words ask for.
//! - `form`: how they are read: by clap, as one simple command.
//! - `seeds`: the number of a seed.
#![tactic(auto)]

mod command;
mod form;
mod seeds;
#[cfg(test)]
mod tests;

pub use command::{Command, WordsError};
