//! The forms of names, and names of checked texts.

ghost use Rattle.std.specs.Prelude.{◌≡◌, true, IfOk};
ghost use Rattle.std.specs.List.{list_all};
ghost use Rattle.qsg_num.specs.Names.{is_alphanumeric, is_queue_name};
ghost use Rattle.mqsc_values.specs.Names.{begins_character, character_count, is_name, form_of, queue_form_of};

use qsg_num::{Name, QUEUE_NAME, QueueName};
use std::alloc::{AllocError, Global};

/// What a text is as a name.
#[derive(Clone, Copy, Debug, PartialEq, Eq)]
pub enum NameForm {
    /// A name.
    Good,
    /// It has too many characters.
    TooLong,
    /// It has no more than a name's characters, and isn't one.
    Bad,
}

/// Whether a byte begins a character, in UTF-8.
fn begins_character(byte: u8) -> bool
    ensures { result ≡ begins_character byte }
{
    byte < 128 || 191 < byte
}

/// How many characters a text has.
pub fn characters(text: &[u8]) -> usize
    ensures { result ≡ character_count text.now }
{
    text.iter().filter(|b| begins_character(**b)).count()
}

fn are_alphanumeric(text: &[u8]) -> bool
    ensures { result ≡ list_all is_alphanumeric text.now }
{
    text.iter().all(|b| b.is_ascii_alphanumeric())
}

/// Whether a text is letters and digits, a letter first.
fn is_name(text: &[u8]) -> bool
    ensures { result ≡ is_name text.now }
{
    !text.is_empty() && text[0].is_ascii_alphabetic() && are_alphanumeric(text)
}

/// What a text is as a name of at most `most` letters and digits, a letter first.
pub fn name_form(text: &[u8], most: usize) -> NameForm
    ensures form { result ≡ form_of text.now most }
    ensures good { result ≡ NameForm.Good → is_name text.now ≡ true }
{
    if characters(text) > most {
        NameForm::TooLong
    } else if is_name(text) {
        NameForm::Good
    } else {
        NameForm::Bad
    }
}

/// Whether a text is the name of a queue.
fn is_queue_name(text: &[u8]) -> bool
    ensures { result ≡ is_queue_name text.now }
{
    match str::from_utf8(text) {
        Ok(name) => QueueName::is_name(name),
        Err(_) => false,
    }
}

/// What a text is as the name of a queue: 1 to 48 of letters, digits, `.`, `/`, `_` and `%`.
pub fn queue_name_form(text: &[u8]) -> NameForm
    ensures form { result ≡ queue_form_of text.now }
    ensures good { result ≡ NameForm.Good → is_queue_name text.now ≡ true }
{
    if characters(text) > QUEUE_NAME {
        NameForm::TooLong
    } else if is_queue_name(text) {
        NameForm::Good
    } else {
        NameForm::Bad
    }
}

/// The name that a text of the right form is.
pub fn copy_name(alloc: Global, text: &[u8]) -> Result<Name, AllocError>
    requires { is_name text.now ≡ true }
    ensures { IfOk result (λ name. name ≡ text.now) }
{
    Ok(Name::from_string(String::from_utf8_lossy(alloc, text)?))
}

/// The name of a queue that a text of the right form is.
pub fn copy_queue_name(alloc: Global, text: &[u8]) -> Result<QueueName, AllocError>
    requires { is_queue_name text.now ≡ true }
    ensures { IfOk result (λ name. name ≡ text.now) }
{
    let name = Name::from_string(String::from_utf8_lossy(alloc, text)?);
    match QueueName::from_name(name) {
        Ok(name) => Ok(name),
        Err(_) => unreachable!(),
    }
}
