//! The first fault of words.

ghost use Rattle.std.specs.Prelude.{◌≡◌, ◌+◌, ◌<◌, ◌≤◌, ◌^◌, [], length, None, is_some, codes};
ghost use Rattle.std.specs.List.{list_any, position};
ghost use Rattle.mqsc_define.specs.Faults.{has_key};
ghost use Rattle.qsg_grammar.specs.Faults.{end_fault, verb_fault, subject_of, unknown_if, repeated_if, slot_fault, has_keyword, is_body, takes_place, keyword_of, value_fault, keyword_fault, word_fault, words_fault, missing_fault, behind, row_fault, start_fault, smds_place};

use crate::faults::Fault;
use crate::keywords::Keyword;
use crate::kinds::Row;
use crate::slots::Slot;
use crate::starting::has_key;
use crate::values::{bad_number_unless, is_repeated, is_right, limit_fault, text_fault};
use mqsc_lex::{Text, Word};
use qsg_draft::{Draft, Stage};
use qsg_num::{ALL_DEVICE_BYTES, Actor, MEMBERS, SCHEDULE_STEPS};

/// What is wrong with END behind devices of so many bytes and so many steps.
fn end_fault(devices: u64, steps: u64) -> Option<Fault>
    ensures { result ≡ end_fault devices steps }
{
    if devices > ALL_DEVICE_BYTES {
        Some(Fault::TooLarge(ALL_DEVICE_BYTES as u32))
    } else if steps > SCHEDULE_STEPS {
        Some(Fault::TooLarge(SCHEDULE_STEPS as u32))
    } else {
        None
    }
}

/// What is wrong with the first word, once its place is right.
fn verb_fault(draft: &Draft, row: Row) -> Option<Fault>
    ensures { result ≡ verb_fault draft.now row }
{
    match row {
        Row::Member if draft.member_count() >= MEMBERS as usize => {
            Some(Fault::TooMany(u32::from(MEMBERS)))
        }
        Row::Operator if draft.has_section(Actor::Operator) => Some(Fault::Repeated(0)),
        Row::End => end_fault(draft.device_bytes(), draft.steps()),
        _ => None,
    }
}

/// The text of the first of these words.
fn subject_of(words: &[Word]) -> &str
    ensures { result.now ≡ subject_of words.now }
{
    match words {
        [word, ..] => word.key.as_str(),
        [] => "",
    }
}

fn unknown_if(place: u32, bad: bool) -> Option<Fault>
    ensures { result ≡ unknown_if place bad }
{
    if bad {
        Some(Fault::UnknownWord(place))
    } else {
        None
    }
}

fn repeated_if(place: u32, bad: bool) -> Option<Fault>
    ensures { result ≡ repeated_if place bad }
{
    if bad {
        Some(Fault::Repeated(place))
    } else {
        None
    }
}

/// What is wrong with a word that has to be this, behind those.
fn slot_fault(draft: &Draft, before: &[Word], slot: Slot, word: &Word) -> Option<Fault>
    requires { 1 + length before.now < 2 ^ 32 }
    ensures { result ≡ slot_fault draft.now before.now slot word.now }
{
    let place = 1 + before.len() as u32;
    let text = word.key.as_str();
    text_fault(draft, place, slot, text)
        .or_else(|| unknown_if(place, word.value.is_some()))
        .or_else(|| repeated_if(place, is_repeated(draft, slot, subject_of(before), text)))
}

/// Whether a word has this keyword.
pub fn has_keyword(word: &Word, keyword: Keyword) -> bool
    ensures { result ≡ has_keyword keyword word.now }
{
    has_key(word, keyword.text())
}

/// Whether a word is BODY, HEX or SIZE, of which a PUT has one.
fn is_body(word: &Word) -> bool
    ensures { result ≡ is_body word.now }
{
    has_keyword(word, Keyword::Body)
        || has_keyword(word, Keyword::Hex)
        || has_keyword(word, Keyword::Size)
}

/// Whether a word takes the place of one of this keyword.
fn takes_place(word: &Word, keyword: Keyword) -> bool
    ensures { result ≡ takes_place keyword word.now }
{
    match keyword {
        Keyword::Body | Keyword::Hex | Keyword::Size => is_body(word),
        _ => has_keyword(word, keyword),
    }
}

/// Whether the place of a keyword is taken by one of these words.
fn is_taken(words: &[Word], keyword: Keyword) -> bool
    ensures { result ≡ list_any (takes_place keyword) words.now }
{
    words.iter().any(|word| takes_place(word, keyword))
}

/// The keyword of a word, among these.
fn keyword_of(allowed: &[Keyword], word: &Word) -> Option<Keyword>
    ensures { result ≡ keyword_of allowed.now word.now }
{
    allowed
        .iter()
        .copied()
        .find(|keyword| has_keyword(word, *keyword))
}

/// What is wrong with the value of a keyword, behind those keywords, in the word at this place.
fn value_fault(
    draft: &Draft,
    subject: &str,
    before: &[Word],
    place: u32,
    keyword: Keyword,
    text: &[u8],
) -> Option<Fault>
    ensures { result ≡ value_fault draft.now subject.now before.now place keyword text.now }
{
    bad_number_unless(place, is_right(keyword, text))
        .or_else(|| repeated_if(place, is_taken(before, keyword)))
        .or_else(|| limit_fault(draft, keyword, subject, text))
}

/// What is wrong with a word that has this keyword, or none, and this value, or none.
fn keyword_fault(
    draft: &Draft,
    subject: &str,
    before: &[Word],
    place: u32,
    keyword: Option<Keyword>,
    value: &Option<Text>,
) -> Option<Fault>
    ensures { result ≡ keyword_fault draft.now subject.now before.now place keyword value.now }
{
    match (keyword, value) {
        (Some(keyword), Some(value)) => value_fault(
            draft,
            subject,
            before,
            place,
            keyword,
            value.text.as_slice(),
        ),
        _ => Some(Fault::UnknownWord(place)),
    }
}

/// What is wrong with a word behind those that stand behind the first.
fn word_fault(draft: &Draft, row: Row, before: &[Word], word: &Word) -> Option<Fault>
    requires { 1 + length before.now < 2 ^ 32 }
    ensures { result ≡ word_fault draft.now row before.now word.now }
{
    let slots = row.slots();
    if before.len() < slots.len() {
        return slot_fault(draft, before, slots[before.len()], word);
    }
    keyword_fault(
        draft,
        subject_of(before),
        &before[slots.len()..],
        1 + before.len() as u32,
        keyword_of(row.keywords(), word),
        &word.value,
    )
}

/// The first fault of the words behind the first.
fn words_fault(draft: &Draft, row: Row, words: &[Word]) -> Option<Fault>
    requires { 1 + length words.now < 2 ^ 32 }
    ensures { result ≡ words_fault draft.now row [] words.now }
{
    for (i, word) in words.iter().enumerate() {
        let fault = word_fault(draft, row, &words[..i], word);
        if fault.is_some() {
            return fault;
        }
    }
    None
}

/// The first word that isn't there.
fn missing_fault(row: Row, words: &[Word]) -> Option<Fault>
    ensures { result ≡ missing_fault row words.now }
{
    match row.slots().get(words.len()) {
        Some(slot) => Some(Fault::Missing(slot.lack())),
        None => None,
    }
}

/// The words behind the first.
fn behind(words: &[Word]) -> &[Word]
    ensures value { result.now ≡ behind words.now }
    ensures short { length result.now ≤ length words.now }
{
    match words {
        [_, behind @ ..] => behind,
        [] => words,
    }
}

/// The first fault of the words of a statement of the table, behind what was read: of its first word, of those
/// behind it, and then of what is missing.
pub fn row_fault(draft: &Draft, row: Row, words: &[Word]) -> Option<Fault>
    requires { 1 + length words.now < 2 ^ 32 }
    ensures { result ≡ row_fault draft.now row words.now }
{
    let behind = behind(words);
    verb_fault(draft, row)
        .or_else(|| words_fault(draft, row, behind))
        .or_else(|| missing_fault(row, behind))
}

/// The fault of a statement whose first word has no place.
pub fn start_fault(stage: Stage) -> Fault
    ensures { result ≡ start_fault stage }
{
    match stage {
        Stage::Start => Fault::NoGroup,
        _ => Fault::UnknownWord(0),
    }
}

/// The first word SMDS.
fn first_smds(words: &[Word]) -> Option<usize>
    ensures { result ≡ position (has_key (codes "SMDS")) words.now }
{
    words.iter().position(|word| has_key(word, "SMDS"))
}

/// The place of the word SMDS; 0 where none stands.
pub fn smds_place(words: &[Word]) -> usize
    ensures { result ≡ smds_place words.now }
{
    first_smds(words).unwrap_or(0)
}
