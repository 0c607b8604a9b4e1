//! Messages and their spelling in bytes.
//!
//! - `message`: what a message is.
//! - `writing`: its one spelling.
//! - `reading`: the message that begins some bytes, or where they leave the grammar.
//! - `fields`: readers of single fields, which log records are read with too.
//! - `fault`: why bytes aren't read.
#![tactic(auto)]

mod fault;
pub mod fields;
mod message;
mod reading;
mod writing;

pub use fault::{MessageFault, Stop};
pub use message::Message;
pub use reading::{decode, read_message, spellings_are_apart};
pub use writing::{encode, push_message};

#[cfg(test)]
mod tests;
