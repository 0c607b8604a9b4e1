//! The first fault of the words of a DEFINE.

ghost use Rattle.std.specs.Prelude.{◌≡◌, ◌+◌, ◌<◌, ◌^◌, length, [], find};
ghost use Rattle.std.specs.List.{list_any};
ghost use Rattle.mqsc_define.specs.Keywords.{required_of};
ghost use Rattle.mqsc_define.specs.Faults.{has_key, is_verb, object_of, has_keyword, keyword_of, known_fault, word_fault, words_fault, is_absent, missing_fault, define_fault, object_fault};

use crate::faults::{DefineFault, Required};
use crate::keywords::{Keyword, Object};
use crate::values::value_fault;
use mqsc_lex::Word;

/// Whether a word's plain key is this text. A quoted key never counts.
fn has_key(word: &Word, text: &str) -> bool
    ensures { result ≡ has_key text.now word.now }
{
    !word.key_quoted && word.key.is(text)
}

/// Whether a word has this keyword.
pub fn has_keyword(word: &Word, keyword: Keyword) -> bool
    ensures { result ≡ has_keyword keyword word.now }
{
    has_key(word, keyword.text())
}

/// The object that a word names.
pub fn object_of(word: &Word) -> Option<Object>
    ensures { result ≡ object_of word.now }
{
    if has_key(word, "CFSTRUCT") {
        Some(Object::Cfstruct)
    } else if has_key(word, "QLOCAL") || has_key(word, "QL") {
        Some(Object::Qlocal)
    } else {
        None
    }
}

/// Whether a word is DEFINE, which has no value.
fn is_verb(word: &Word) -> bool
    ensures { result ≡ is_verb word.now }
{
    (has_key(word, "DEFINE") || has_key(word, "DEF")) && word.value.is_none()
}

/// The keyword of a word, among those of an object.
fn keyword_of(object: Object, word: &Word) -> Option<Keyword>
    ensures { result ≡ keyword_of object word.now }
{
    object
        .keywords()
        .iter()
        .copied()
        .find(|keyword| has_keyword(word, *keyword))
}

/// Whether one of these words has this key.
fn stands_in(words: &[Word], text: &str) -> bool
    ensures { result ≡ list_any (has_key text.now) words.now }
{
    words.iter().any(|word| has_key(word, text))
}

/// Whether one of these words has this keyword.
fn stood(words: &[Word], keyword: Keyword) -> bool
    ensures { result ≡ list_any (has_keyword keyword) words.now }
{
    stands_in(words, keyword.text())
}

/// What is wrong with a word that has this keyword, at a place behind these keywords.
fn known_fault(place: u32, before: &[Word], word: &Word, keyword: Keyword) -> Option<DefineFault>
    ensures { result ≡ known_fault place before.now word.now keyword }
{
    if stood(before, keyword) {
        Some(DefineFault::Twice(place))
    } else {
        value_fault(place, keyword.form(), &word.value)
    }
}

/// What is wrong with a word of an object, behind these keywords.
fn word_fault(object: Object, before: &[Word], word: &Word) -> Option<DefineFault>
    requires { 2 + length before.now < 2 ^ 32 }
    ensures { result ≡ word_fault object before.now word.now }
{
    let place = 2 + before.len() as u32;
    match keyword_of(object, word) {
        Some(keyword) => known_fault(place, before, word, keyword),
        None => Some(DefineFault::UnknownKeyword(place)),
    }
}

/// The first fault of the words of an object.
fn words_fault(object: Object, words: &[Word]) -> Option<DefineFault>
    requires { 2 + length words.now < 2 ^ 32 }
    ensures { result ≡ words_fault object [] words.now }
{
    for (i, word) in words.iter().enumerate() {
        let fault = word_fault(object, &words[..i], word);
        if fault.is_some() {
            return fault;
        }
    }
    None
}

/// Whether no word has this keyword.
fn is_absent(words: &[Word], required: Required) -> bool
    ensures { result ≡ is_absent words.now required }
{
    !stands_in(words, required.text())
}

/// The first required keyword of an object that is absent.
fn first_absent(object: Object, words: &[Word]) -> Option<Required>
    ensures { result ≡ find (is_absent words.now) (required_of object) }
{
    object
        .required()
        .iter()
        .copied()
        .find(|required| is_absent(words, *required))
}

/// The fault of a required keyword's absence.
fn missing_fault(object: Object, words: &[Word]) -> Option<DefineFault>
    ensures { result ≡ missing_fault object words.now }
{
    match first_absent(object, words) {
        Some(required) => Some(DefineFault::Missing(required)),
        None => None,
    }
}

/// The first fault of what stands behind the verb.
fn object_fault(words: &[Word]) -> Option<DefineFault>
    requires { 1 + length words.now < 2 ^ 32 }
    ensures { result ≡ object_fault words.now }
{
    let [word, keywords @ ..] = words else {
        return Some(DefineFault::UnknownObject);
    };
    let Some(object) = object_of(word) else {
        return Some(DefineFault::UnknownObject);
    };
    value_fault(1, object.form_of_name(), &word.value)
        .or_else(|| words_fault(object, keywords))
        .or_else(|| missing_fault(object, keywords))
}

/// The first fault of the words of a DEFINE.
pub fn define_fault(words: &[Word]) -> Option<DefineFault>
    requires { length words.now < 2 ^ 32 }
    ensures { result ≡ define_fault words.now }
{
    match words {
        [verb, behind @ ..] if is_verb(verb) => object_fault(behind),
        _ => Some(DefineFault::UnknownVerb),
    }
}
