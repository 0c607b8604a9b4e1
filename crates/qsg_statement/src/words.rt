//! The texts of words, and the values of keywords.

ghost use Rattle.std.specs.Prelude.{◌≡◌, ◌≤◌, ◌<◌, ◌+◌, true, None, Some, IfOk, find, length, slice_get, drop, is_some};
ghost use Rattle.std.specs.Option.{ForSome, option_copied};
ghost use Rattle.qsg_num.specs.Names.{is_queue_name};
ghost use Rattle.mqsc_values.specs.Names.{is_name};
ghost use Rattle.mqsc_values.specs.Hexadecimal.{bytes_of};
ghost use Rattle.mqsc_values.specs.Numbers.{number_of};
ghost use Rattle.mqsc_define.specs.Values.{is_text};
ghost use Rattle.mqsc_define.specs.Definitions.{value_text, count_or, number_or};
ghost use Rattle.qsg_grammar.specs.declared.keywords.Keyword.TheVariants as keyword;
ghost use Rattle.qsg_grammar.specs.Faults.{has_keyword};
ghost use Rattle.qsg_statement.specs.Words.{key_at, text_behind, member_of, structure_of, id_behind, id_or_zeros, hex_body, body_of, priority_of, persistent_of, IsBodyRight};

use mqsc_lex::Word;
use mqsc_values::{Number, copy_name, copy_queue_name, hex_bytes, hex_id, read_number};
use qsg_draft::Draft;
use qsg_grammar::{Keyword, has_keyword};
use qsg_num::{Body, Bytes, LONGEST_BODY, Member, Name, PRIORITIES, Priority, QueueName, StructNo};
use qsg_objects::BodyWord;
use std::alloc::{AllocError, Global};

/// The text of the word at a place of a statement, from 0; empty where there is none.
pub fn key_at(words: &[Word], place: usize) -> &str
    ensures { result.now ≡ key_at place words.now }
{
    match words.get(place) {
        Some(word) => word.key.as_str(),
        None => "",
    }
}

/// The words from a place on.
pub fn from_place(words: &[Word], place: usize) -> &[Word]
    ensures { result.now ≡ drop place words.now }
{
    if place < words.len() {
        &words[place..]
    } else {
        &words[words.len()..]
    }
}

/// The name of a group, a member or a structure.
pub fn name_of(alloc: Global, text: &str) -> Result<Name, AllocError>
    ensures { IfOk result (λ name. name ≡ text.now) }
{
    Name::from_str(alloc, text)
}

/// The name of a queue.
pub fn queue_of(alloc: Global, text: &str) -> Result<QueueName, AllocError>
    requires { is_queue_name text.now ≡ true }
    ensures { IfOk result (λ name. name ≡ text.now) }
{
    copy_queue_name(alloc, text.as_bytes())
}

/// The member of a name; the first where none has it.
pub fn member_of(draft: &Draft, name: &str) -> Member
    ensures { result ≡ member_of name.now draft.now }
{
    draft.member_named(name).unwrap_or(Member::One)
}

/// The structure of a name; the first where none has it.
pub fn structure_of(draft: &Draft, name: &str) -> StructNo
    ensures { result ≡ structure_of name.now draft.now }
{
    draft.structure_named(name).unwrap_or(StructNo::One)
}

/// The text of a word's value, if it has one.
fn value_text(word: &Word) -> Option<&[u8]>
    ensures { option_copied result ≡ value_text word.now }
{
    match &word.value {
        Some(value) => Some(value.text.as_slice()),
        None => None,
    }
}

/// The first of these words that has this keyword.
fn word_with(words: &[Word], keyword: Keyword) -> Option<&Word>
    ensures { option_copied result ≡ find (has_keyword keyword) words.now }
{
    words.iter().find(|word| has_keyword(word, keyword))
}

/// The text behind a keyword, if that is there.
pub fn text_behind(words: &[Word], keyword: Keyword) -> Option<&[u8]>
    ensures { option_copied result ≡ text_behind keyword words.now }
{
    match word_with(words, keyword) {
        Some(word) => value_text(word),
        None => None,
    }
}

/// A number of at most so much, or a default where the text is none.
pub fn number_or(text: &[u8], most: u64, default: u64) -> u64
    requires { default ≤ most + 1 }
    ensures value { result ≡ number_or default (number_of text.now most) }
    ensures bound { result ≤ most + 1 }
{
    match read_number(text, most) {
        Number::Value(n) => n,
        Number::TooLarge | Number::Bad => default,
    }
}

/// The number behind a keyword, of at most so much; a default where it is absent.
pub fn count_behind(words: &[Word], keyword: Keyword, most: u64, default: u64) -> u64
    requires { default ≤ most }
    ensures value { result ≡ count_or default most (text_behind keyword words.now) }
    ensures bound { result ≤ most }
{
    match text_behind(words, keyword) {
        Some(text) => match read_number(text, most) {
            Number::Value(n) => n,
            Number::TooLarge | Number::Bad => default,
        },
        None => default,
    }
}

/// The 24 bytes behind MSGID or CORRELID, if it is there.
pub fn id_behind(words: &[Word], keyword: Keyword) -> Option<[u8; 24]>
    ensures { result ≡ id_behind keyword words.now }
{
    match text_behind(words, keyword) {
        Some(text) => hex_id(text),
        None => None,
    }
}

/// The 24 bytes behind MSGID or CORRELID; zeros where it is absent.
pub fn id_or_zeros(words: &[Word], keyword: Keyword) -> [u8; 24]
    ensures { result ≡ id_or_zeros keyword words.now }
{
    id_behind(words, keyword).unwrap_or([0; 24])
}

/// The body that bytes in hexadecimal digits are.
fn hex_body(alloc: Global, text: &[u8]) -> Result<Body, AllocError>
    requires { length text.now ≤ 8388609 }
    ensures { IfOk result (λ body. body ≡ hex_body text.now) }
{
    match hex_bytes(alloc, text)? {
        Some(bytes) => Ok(Body::from_bytes(bytes)),
        None => Body::from_slice(alloc, &[]),
    }
}

/// The body of a PUT, by BODY, HEX or SIZE; of no bytes where none stands.
pub fn body_of(alloc: Global, words: &[Word]) -> Result<BodyWord, AllocError>
    requires { IsBodyRight words.now }
    ensures { IfOk result (λ body. body ≡ body_of words.now) }
{
    if let Some(text) = text_behind(words, Keyword::Body) {
        return Ok(BodyWord::Given(Body::from_slice(alloc, text)?));
    }
    if let Some(text) = text_behind(words, Keyword::Hex) {
        return Ok(BodyWord::Given(hex_body(alloc, text)?));
    }
    match text_behind(words, Keyword::Size) {
        Some(text) => Ok(BodyWord::Size(number_or(text, u64::from(LONGEST_BODY), 0) as u32)),
        None => Ok(BodyWord::Given(Body::from_slice(alloc, &[])?)),
    }
}

/// What PRI says; None for -1, which is the queue's default.
pub fn priority_of(words: &[Word]) -> Option<Priority>
    ensures { result ≡ priority_of (text_behind keyword.Pri words.now) }
{
    match text_behind(words, Keyword::Pri) {
        Some(text) if text == b"-1".as_slice() => None,
        Some(text) => Priority::new(number_or(text, u64::from(PRIORITIES) - 1, 0) as u8),
        None => None,
    }
}

/// What PERS says; None for 2, which is the queue's default.
pub fn persistent_of(words: &[Word]) -> Option<bool>
    ensures { result ≡ persistent_of (text_behind keyword.Pers words.now) }
{
    match text_behind(words, Keyword::Pers) {
        Some(text) if text == b"0".as_slice() => Some(false),
        Some(text) if text == b"1".as_slice() => Some(true),
        _ => None,
    }
}
