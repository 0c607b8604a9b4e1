//! What is wrong with the value of a word.

ghost use Rattle.std.specs.Prelude.{◌≡◌, ◌||◌};
ghost use Rattle.mqsc_define.specs.Values.{is_text, bad_unless, name_fault};
ghost use Rattle.mqsc_admin.specs.Values.{text_fault, value_fault};

use crate::keywords::Form;
use mqsc_define::DefineFault;
use mqsc_lex::Text;
use mqsc_values::{NameForm, Number, name_form, queue_name_form, read_number};
use qsg_num::{GROUP_NAME, STRUCTURE_NAME};

/// The highest EXCLINT.
const LONGEST_INTERVAL: u64 = u32::MAX as u64;

/// Whether a text is this word.
pub fn is_text(text: &[u8], word: &str) -> bool
    ensures { result ≡ is_text word.now text.now }
{
    text == word.as_bytes()
}

fn is_either(text: &[u8], one: &str, other: &str) -> bool
    ensures { result ≡ (is_text one.now text.now || is_text other.now text.now) }
{
    is_text(text, one) || is_text(text, other)
}

fn bad_unless(place: u32, good: bool) -> Option<DefineFault>
    ensures { result ≡ bad_unless place good }
{
    if good {
        None
    } else {
        Some(DefineFault::BadValue(place))
    }
}

fn name_fault(place: u32, form: NameForm) -> Option<DefineFault>
    ensures { result ≡ name_fault place form }
{
    match form {
        NameForm::Good => None,
        NameForm::TooLong => Some(DefineFault::NameTooLong(place)),
        NameForm::Bad => Some(DefineFault::BadValue(place)),
    }
}

/// What is wrong with a text that has to be of this form, in the word at this place.
fn text_fault(place: u32, form: Form, text: &[u8]) -> Option<DefineFault>
    ensures { result ≡ text_fault place form text.now }
{
    match form {
        Form::StructureName => name_fault(place, name_form(text, STRUCTURE_NAME)),
        Form::QueueName => name_fault(place, queue_name_form(text)),
        Form::MemberName => name_fault(place, name_form(text, GROUP_NAME)),
        Form::AllMembers => bad_unless(place, is_text(text, "*")),
        Form::Interval => match read_number(text, LONGEST_INTERVAL) {
            Number::Value(_) => None,
            Number::TooLarge | Number::Bad => Some(DefineFault::BadValue(place)),
        },
        Form::NormalOrPurge => bad_unless(place, is_either(text, "NORMAL", "PURGE")),
        Form::EnabledOrDisabled => bad_unless(place, is_either(text, "ENABLED", "DISABLED")),
        Form::FailedOrRecovered => bad_unless(place, is_either(text, "FAILED", "RECOVERED")),
    }
}

/// What is wrong with a value that has to be of this form, or with its absence, in the word at this place.
pub fn value_fault(place: u32, form: Form, value: &Option<Text>) -> Option<DefineFault>
    ensures { result ≡ value_fault place form value.now }
{
    match value {
        None => Some(DefineFault::BadValue(place)),
        Some(value) => text_fault(place, form, value.text.as_slice()),
    }
}
