//! The lower half of the reader of scripts: from bytes to statements, comments and the faults of lines.
//!
//! - `lines`: the lines of bytes.
//! - `kinds`: comments, long lines, and the sign by which a line goes on.
//! - `joining`: the lines of one statement, as one text.
//! - `items`: what a statement or a comment gives: a text, a fault, or nothing.
//! - `statements`: the reader of a whole script.
//! - `laws`: what holds of the items of every script.
#![tactic(auto)]

mod items;
mod joining;
mod kinds;
mod laws;
mod lines;
mod statements;
#[cfg(test)]
mod tests;

pub use items::{Item, LineFault};
pub use laws::statements_stand_before_their_comments;
pub use statements::Statements;
