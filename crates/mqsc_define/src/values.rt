//! What is wrong with the value of a word.

ghost use Rattle.std.specs.Prelude.{◌≡◌, ℕ, count_by, IfSome, ◌^◌, ◌<◌, ◌||◌};
ghost use Rattle.mqsc_define.specs.Values.{is_text, is_at_least, kilobytes_of, block_of, bad_unless, name_fault, level_fault, asterisk_fault, is_asterisk, data_sets_fault, text_fault, value_fault};

use crate::faults::DefineFault;
use crate::keywords::Form;
use crate::limits::{LEVEL, RULE_KILOBYTES};
use mqsc_lex::Text;
use mqsc_values::{NameForm, Number, characters, name_form, queue_name_form, read_number};
use qsg_num::{DESCR_CHARS, DSGROUP_CHARS, STRUCTURE_NAME};

/// Whether a text is this word.
pub fn is_text(text: &[u8], word: &str) -> bool
    ensures { result ≡ is_text word.now text.now }
{
    text == word.as_bytes()
}

fn is_at_least(least: u64, number: Number) -> bool
    ensures { result ≡ is_at_least least number }
{
    match number {
        Number::Value(value) => least <= value,
        Number::TooLarge | Number::Bad => false,
    }
}

/// What a text says as a number of at most so much, with a K behind it.
pub fn read_kilobytes(text: &[u8], most: u64) -> Number
    ensures { result ≡ kilobytes_of text.now most }
{
    match text.split_last() {
        Some((b'K', number)) => read_number(number, most),
        _ => Number::Bad,
    }
}

/// The bytes of a block, as DSBLOCK names them.
pub fn read_block(text: &[u8]) -> Option<u32>
    ensures value { result ≡ block_of text.now }
    ensures bound { IfSome result (λ bytes. bytes < 2 ^ 32) }
{
    if is_text(text, "8K") {
        Some(8_192)
    } else if is_text(text, "16K") {
        Some(16_384)
    } else if is_text(text, "32K") {
        Some(32_768)
    } else if is_text(text, "64K") {
        Some(65_536)
    } else if is_text(text, "128K") {
        Some(131_072)
    } else if is_text(text, "256K") {
        Some(262_144)
    } else if is_text(text, "512K") {
        Some(524_288)
    } else if is_text(text, "1M") {
        Some(1_048_576)
    } else {
        None
    }
}

fn bad_unless(place: u32, good: bool) -> Option<DefineFault>
    ensures { result ≡ bad_unless place good }
{
    if good {
        None
    } else {
        Some(DefineFault::BadValue(place))
    }
}

fn name_fault(place: u32, form: NameForm) -> Option<DefineFault>
    ensures { result ≡ name_fault place form }
{
    match form {
        NameForm::Good => None,
        NameForm::TooLong => Some(DefineFault::NameTooLong(place)),
        NameForm::Bad => Some(DefineFault::BadValue(place)),
    }
}

fn level_fault(place: u32, number: Number) -> Option<DefineFault>
    ensures { result ≡ level_fault place number }
{
    match number {
        Number::Value(level) => {
            if level == LEVEL {
                None
            } else if 1 <= level {
                Some(DefineFault::LevelNot5)
            } else {
                Some(DefineFault::BadValue(place))
            }
        }
        Number::TooLarge | Number::Bad => Some(DefineFault::BadValue(place)),
    }
}

fn count_asterisks(text: &[u8]) -> usize
    ensures { result ≡ count_by is_asterisk text.now }
{
    text.iter().filter(|b| **b == b'*').count()
}

fn asterisk_fault(count: usize) -> Option<DefineFault>
    ensures { result ≡ asterisk_fault count }
{
    if count == 0 {
        Some(DefineFault::NoAsterisk)
    } else if count == 1 {
        None
    } else {
        Some(DefineFault::TwoAsterisks)
    }
}

fn data_sets_fault(place: u32, text: &[u8]) -> Option<DefineFault>
    ensures { result ≡ data_sets_fault place text.now }
{
    let length = characters(text);
    if 1 <= length && length <= DSGROUP_CHARS {
        asterisk_fault(count_asterisks(text))
    } else {
        Some(DefineFault::BadValue(place))
    }
}

fn is_either(text: &[u8], one: &str, other: &str) -> bool
    ensures { result ≡ is_text one.now text.now || is_text other.now text.now }
{
    is_text(text, one) || is_text(text, other)
}

/// What is wrong with a text that has to be of this form, in the word at this place.
fn text_fault(place: u32, form: Form, text: &[u8]) -> Option<DefineFault>
    ensures { result ≡ text_fault place form text.now }
{
    match form {
        Form::Nothing => Some(DefineFault::BadValue(place)),
        Form::Level => level_fault(place, read_number(text, LEVEL)),
        Form::Smds => bad_unless(place, is_text(text, "SMDS")),
        Form::Shared => bad_unless(place, is_text(text, "SHARED")),
        Form::YesOrNo => bad_unless(place, is_either(text, "YES", "NO")),
        Form::EnabledOrDisabled => bad_unless(place, is_either(text, "ENABLED", "DISABLED")),
        Form::PriorityOrFifo => bad_unless(place, is_either(text, "PRIORITY", "FIFO")),
        Form::Number(least, most) => {
            bad_unless(place, is_at_least(least, read_number(text, most)))
        }
        Form::RuleSize => {
            bad_unless(place, is_at_least(0, read_kilobytes(text, RULE_KILOBYTES)))
        }
        Form::BlockSize => bad_unless(place, read_block(text).is_some()),
        Form::DataSets => data_sets_fault(place, text),
        Form::Description => bad_unless(place, characters(text) <= DESCR_CHARS),
        Form::StructureName => name_fault(place, name_form(text, STRUCTURE_NAME)),
        Form::QueueName => name_fault(place, queue_name_form(text)),
    }
}

/// What is wrong with a value that has to be of this form, or with its absence, in the word at this place.
pub fn value_fault(place: u32, form: Form, value: &Option<Text>) -> Option<DefineFault>
    ensures { result ≡ value_fault place form value.now }
{
    match (form, value) {
        (Form::Nothing, None) => None,
        (_, None) => Some(DefineFault::BadValue(place)),
        (_, Some(value)) => text_fault(place, form, value.text.as_slice()),
    }
}
