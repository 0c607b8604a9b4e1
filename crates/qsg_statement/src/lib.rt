//! The statements of a script: what their words mean, and the reading of one text behind what was read.
//!
//! - `statements`: a statement.
//! - `texts`: the text of a statement, as its words are read.
//! - `words`: the texts and values of words.
//! - `building`: the statement that words without a fault are.
//! - `reading`: a statement, or the first fault of its text.
//! - `laws`: what holds of statements.
#![tactic(auto)]

mod building;
mod laws;
mod reading;
mod statements;
#[cfg(test)]
mod tests;
mod texts;
mod words;

pub use laws::{each_keyword_counts, texts_are_one_statement_or_at_fault};
pub use reading::{StatementError, read_statement};
pub use statements::Statement;
