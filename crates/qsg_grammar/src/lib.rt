//! The grammar of scripts: statements, the words of each, and the first fault of these.
//!
//! - `kinds`: kinds of statement, and the table of those whose words have places.
//! - `slots`: what stands at a place behind the first word.
//! - `keywords`: keywords of statements, and what the value of each has to be.
//! - `faults`: what is wrong with the words of a statement.
//! - `whys`: why a script isn't read, and how that is printed.
//! - `starting`: the kind of a statement, by where it stands and by its first words.
//! - `values`: what is wrong with a text in a place, or with the value of a keyword.
//! - `checking`: the first fault of words.
//! - `laws`: what holds of the words of statements.
#![tactic(auto)]

mod checking;
mod faults;
mod keywords;
mod kinds;
mod laws;
mod slots;
mod starting;
#[cfg(test)]
mod tests;
mod values;
mod whys;

pub use checking::{has_keyword, row_fault, smds_place, start_fault};
pub use faults::{Fault, Lack};
pub use keywords::Keyword;
pub use kinds::{Kind, Row};
pub use laws::{quoted_words_are_plain_texts, the_first_word_at_fault_decides};
pub use slots::Slot;
pub use starting::kind_of;
pub use values::task_of;
pub use whys::{Why, why_of};
