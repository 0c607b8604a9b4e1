//! What is wrong with a text at a place, or with the value of a keyword.

ghost use Rattle.std.specs.Prelude.{◌≡◌, ◌≤◌, ◌+◌, is_some};
ghost use Rattle.mqsc_values.specs.Numbers.{number_of};
ghost use Rattle.mqsc_define.specs.Values.{is_text, is_at_least};
ghost use Rattle.qsg_objects.specs.Registry.{number_named};
ghost use Rattle.qsg_grammar.specs.Values.{is_good, is_any_number, is_positive, bad_number_unless, name_fault, text_fault, task_of, has_facility_named, has_task, is_repeated, is_right, bytes_by, body_limit, most_blocks, is_within, blocks_limit, limit_fault};
ghost use Rattle.mqsc_values.specs.Hexadecimal.{bytes_of};
ghost use Rattle.std.specs.List.{list_all};
ghost use Rattle.std.specs.Char.{is_ascii_hexdigit};
ghost use Rattle.qsg_grammar.specs.declared.keywords.Keyword.TheVariants as keyword;

use crate::faults::Fault;
use crate::keywords::Keyword;
use crate::slots::Slot;
use mqsc_values::{NameForm, Number, hex_id, name_form, queue_name_form, read_number};
use qsg_draft::Draft;
use qsg_num::{
    ALL_BODIES, Actor, DATA_SET_BYTES, ELEMENTS, GROUP_NAME, LOG_PAGES, LONGEST_BODY, Member,
    PRIORITIES, SCHEDULE_STEPS, STRUCTURE_NAME, StructNo, TASKS, TaskNo,
};

fn is_good(form: NameForm) -> bool
    ensures { result ≡ is_good form }
{
    matches!(form, NameForm::Good)
}

/// Whether a text is a number from the first to the last of these.
fn is_number(text: &[u8], least: u64, most: u64) -> bool
    ensures { result ≡ is_at_least least (number_of text.now most) }
{
    match read_number(text, most) {
        Number::Value(n) => least <= n,
        Number::TooLarge | Number::Bad => false,
    }
}

/// Whether a text is a number, however large.
fn is_any_number(text: &[u8], most: u64) -> bool
    ensures { result ≡ is_any_number (number_of text.now most) }
{
    match read_number(text, most) {
        Number::Value(_) | Number::TooLarge => true,
        Number::Bad => false,
    }
}

/// Whether a text is a number of at least 1, however large.
fn is_positive(text: &[u8], most: u64) -> bool
    ensures { result ≡ is_positive (number_of text.now most) }
{
    match read_number(text, most) {
        Number::Value(n) => 1 <= n,
        Number::TooLarge => true,
        Number::Bad => false,
    }
}

pub fn bad_number_unless(place: u32, good: bool) -> Option<Fault>
    ensures { result ≡ bad_number_unless place good }
{
    if good {
        None
    } else {
        Some(Fault::BadNumber(place))
    }
}

/// Of a name: that it is out of its form, and then that it isn't defined.
fn name_fault(place: u32, good: bool, defined: bool) -> Option<Fault>
    ensures { result ≡ name_fault place good defined }
{
    if !good {
        Some(Fault::BadName(place))
    } else if !defined {
        Some(Fault::UnknownName(place))
    } else {
        None
    }
}

/// What is wrong with a text at a place, but for what stands a second time.
pub fn text_fault(draft: &Draft, place: u32, slot: Slot, text: &str) -> Option<Fault>
    ensures { result ≡ text_fault draft.now place slot text.now }
{
    let bytes = text.as_bytes();
    match slot {
        Slot::GroupName | Slot::NewMember => {
            name_fault(place, is_good(name_form(bytes, GROUP_NAME)), true)
        }
        Slot::Member | Slot::ActorMember => name_fault(
            place,
            is_good(name_form(bytes, GROUP_NAME)),
            draft.member_named(text).is_some(),
        ),
        Slot::ActorOperator => None,
        Slot::Structure | Slot::NewFacility => name_fault(
            place,
            is_good(name_form(bytes, STRUCTURE_NAME)),
            draft.structure_named(text).is_some(),
        ),
        Slot::Queue => name_fault(place, is_good(queue_name_form(bytes)), true),
        Slot::NewTask => bad_number_unless(place, is_number(bytes, 1, u64::from(TASKS))),
        Slot::AnyTask => bad_number_unless(place, is_number(bytes, 0, u64::from(TASKS))),
        Slot::Answers => bad_number_unless(place, is_number(bytes, 0, u64::from(u32::MAX))),
        Slot::Turns => bad_number_unless(place, is_any_number(bytes, SCHEDULE_STEPS)),
    }
}

/// The task that a text numbers.
pub fn task_of(text: &[u8]) -> TaskNo
    ensures { result ≡ task_of text.now }
{
    match read_number(text, u64::from(TASKS)) {
        Number::Value(n) => TaskNo::new(n as u8).unwrap_or(TaskNo::System),
        Number::TooLarge | Number::Bad => TaskNo::System,
    }
}

fn has_facility_named(draft: &Draft, structure: Option<StructNo>) -> bool
    ensures { result ≡ has_facility_named structure draft.now }
{
    match structure {
        Some(structure) => draft.has_facility(structure),
        None => false,
    }
}

fn has_task(draft: &Draft, member: Option<Member>, text: &str) -> bool
    ensures { result ≡ has_task member text.now draft.now }
{
    match member {
        Some(member) => draft.has_section(Actor::Task(member, task_of(text.as_bytes()))),
        None => false,
    }
}

/// Whether what a text at a place names stands a second time. The subject is the text before it.
pub fn is_repeated(draft: &Draft, slot: Slot, subject: &str, text: &str) -> bool
    ensures { result ≡ is_repeated draft.now slot subject.now text.now }
{
    match slot {
        Slot::NewMember => draft.member_named(text).is_some(),
        Slot::NewFacility => has_facility_named(draft, draft.structure_named(text)),
        Slot::NewTask => has_task(draft, draft.member_named(subject), text),
        _ => false,
    }
}

fn are_digits(text: &[u8]) -> bool
    ensures { result ≡ list_all is_ascii_hexdigit text.now }
{
    text.iter().all(|b| b.is_ascii_hexdigit())
}

/// Whether a text is an even number of hexadecimal digits.
fn are_bytes(text: &[u8]) -> bool
    ensures { result ≡ is_some (bytes_of text.now) }
{
    text.len() % 2 == 0 && are_digits(text)
}

/// Whether the value of a keyword is a number in its range, or bytes in hexadecimal digits.
pub fn is_right(keyword: Keyword, text: &[u8]) -> bool
    ensures { result ≡ is_right keyword text.now }
{
    match keyword {
        Keyword::Log => is_number(text, 1, u64::from(LOG_PAGES)),
        Keyword::Pick => is_number(text, 0, u64::MAX),
        Keyword::Elements => is_number(text, 1, u64::from(ELEMENTS)),
        Keyword::Blocks => is_positive(text, u64::from(DATA_SET_BYTES)),
        Keyword::Body => true,
        Keyword::Hex => are_bytes(text),
        Keyword::Size => is_any_number(text, u64::from(LONGEST_BODY)),
        Keyword::Pri => text == b"-1".as_slice() || is_number(text, 0, u64::from(PRIORITIES) - 1),
        Keyword::Pers => is_number(text, 0, 2),
        Keyword::Msgid | Keyword::Correlid => hex_id(text).is_some(),
    }
}

/// The bytes of a body by SIZE; one past the longest body stands for every longer one.
fn size_of(text: &[u8]) -> u64
    ensures { result ≡ bytes_by keyword.Size text.now }
{
    match read_number(text, u64::from(LONGEST_BODY)) {
        Number::Value(n) => n,
        Number::TooLarge | Number::Bad => u64::from(LONGEST_BODY) + 1,
    }
}

/// The limit that a body of so many bytes passes: its own, and then that of all bodies.
fn body_limit(all: u64, bytes: u64) -> Option<Fault>
    requires { all ≤ 268435457 }
    ensures { result ≡ body_limit all bytes }
{
    if bytes > u64::from(LONGEST_BODY) {
        Some(Fault::TooLarge(LONGEST_BODY))
    } else if all + bytes > ALL_BODIES {
        Some(Fault::TooLarge(ALL_BODIES as u32))
    } else {
        None
    }
}

/// The blocks that a data set of a structure may have.
fn most_blocks(draft: &Draft, structure: Option<StructNo>) -> u32
    ensures { result ≡ most_blocks structure draft.now }
{
    match structure {
        Some(structure) => draft.blocks_in(structure, DATA_SET_BYTES),
        None => 0,
    }
}

fn blocks_limit(most: u32, text: &[u8]) -> Option<Fault>
    ensures { result ≡ blocks_limit most text.now }
{
    match read_number(text, u64::from(most)) {
        Number::Value(_) => None,
        Number::TooLarge | Number::Bad => Some(Fault::TooLarge(DATA_SET_BYTES)),
    }
}

/// The limit that the value of a keyword passes. The subject is the text right behind the first word.
pub fn limit_fault(draft: &Draft, keyword: Keyword, subject: &str, text: &[u8]) -> Option<Fault>
    ensures { result ≡ limit_fault draft.now keyword subject.now text.now }
{
    match keyword {
        Keyword::Blocks => blocks_limit(most_blocks(draft, draft.structure_named(subject)), text),
        Keyword::Body => body_limit(draft.bodies(), text.len() as u64),
        Keyword::Hex => body_limit(draft.bodies(), text.len() as u64 / 2),
        Keyword::Size => body_limit(draft.bodies(), size_of(text)),
        _ => None,
    }
}
