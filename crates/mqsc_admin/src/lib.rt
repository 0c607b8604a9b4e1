//! The commands BACKUP, RECOVER, RESET and DISPLAY, read from their words.
//!
//! - `admins`: a command.
//! - `keywords`: verbs, objects and keywords, and what the value of each has to be.
//! - `values`: what is wrong with a value.
//! - `checking`: the first fault of words.
//! - `building`: the command that words without a fault are.
//! - `reading`: a command, or the first fault.
//! - `laws`: what holds of the words of commands.
#![tactic(auto)]

mod admins;
mod building;
mod checking;
mod keywords;
mod laws;
mod reading;
#[cfg(test)]
mod tests;
mod values;

pub use admins::Admin;
pub use laws::{
    a_reset_has_one_of_access_and_status, each_keyword_counts, quoted_words_are_plain_texts,
    the_first_word_at_fault_decides,
};
pub use reading::parse_admin;
