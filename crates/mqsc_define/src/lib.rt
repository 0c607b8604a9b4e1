//! Definitions of structures and queues, read from the words of DEFINE CFSTRUCT and DEFINE QLOCAL.
//!
//! - `faults`: what is wrong with words that are no definition.
//! - `keywords`: the tables of DEFINE: objects, their keywords, and what the value of each has to be.
//! - `limits`: the ranges and defaults of those values.
//! - `values`: what is wrong with a value.
//! - `checking`: the first fault of words.
//! - `building`: what words without a fault define.
//! - `reading`: a definition, or the first fault.
//! - `laws`: what holds of the words of a DEFINE.
#![tactic(auto)]

mod building;
mod checking;
mod faults;
mod keywords;
mod laws;
mod limits;
mod reading;
#[cfg(test)]
mod tests;
mod values;

pub use faults::{DefineError, DefineFault, Required};
pub use laws::{
    absent_keywords_have_defaults, each_keyword_counts, quoted_words_are_plain_texts,
    the_first_word_at_fault_decides,
};
pub use reading::define;
