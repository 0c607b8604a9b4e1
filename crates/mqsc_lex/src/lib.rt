//! The words of a statement: keys and values as a script and its definitions write them.
//!
//! - `words`: a word and its value.
//! - `faults`: what is wrong with a text that isn't words.
//! - `texts`: plain and quoted texts.
//! - `reading`: the words of a text, or its leftmost fault.
#![tactic(auto)]

mod faults;
mod reading;
#[cfg(test)]
mod tests;
mod texts;
mod words;

pub use faults::{LexError, LexFault};
pub use reading::lex;
pub use words::{Text, Word, Words};
