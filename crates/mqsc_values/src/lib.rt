//! What the text of a word means: a decimal number, a name of some form, or bytes in hexadecimal digits.
//! A text is a slice of bytes, and each call answers for any of them.
//!
//! - `numbers`: decimal numbers.
//! - `names`: the forms of names, and names of checked texts.
//! - `hexadecimal`: bytes in hexadecimal digits.
//! - `laws`: a number's text is the one that is printed for it.
#![tactic(auto)]

mod hexadecimal;
mod laws;
mod names;
mod numbers;
#[cfg(test)]
mod tests;

pub use hexadecimal::{hex_bytes, hex_id};
pub use laws::{numbers_have_one_text, texts_say_their_numbers};
pub use names::{NameForm, characters, copy_name, copy_queue_name, name_form, queue_name_form};
pub use numbers::{Number, read_number};
