//! The first fault of the words of a command.

ghost use Rattle.std.specs.Prelude.{◌≡◌, ◌+◌, ◌<◌, ◌^◌, [], length, Some, find};
ghost use Rattle.std.specs.List.{list_any};
ghost use Rattle.mqsc_define.specs.Faults.{has_key};
ghost use Rattle.mqsc_admin.specs.Faults.{is_verb, verb_of, object_of, has_keyword, is_wanted, takes_place, keyword_of, word_fault, words_fault, says, is_absent, missing_fault, keywords_fault, shown_fault, display_fault, verb_fault, admin_fault};

use crate::keywords::{Keyword, Object, Verb};
use crate::values::value_fault;
use mqsc_define::{DefineFault, Required};
use mqsc_lex::Word;

/// Whether a word's plain key is this text. A quoted key never counts.
fn has_key(word: &Word, text: &str) -> bool
    ensures { result ≡ has_key text.now word.now }
{
    !word.key_quoted && word.key.is(text)
}

fn is_verb(word: &Word, text: &str) -> bool
    ensures { result ≡ is_verb text.now word.now }
{
    has_key(word, text) && word.value.is_none()
}

/// The verb that a word is.
pub fn verb_of(word: &Word) -> Option<Verb>
    ensures { result ≡ verb_of word.now }
{
    if is_verb(word, "BACKUP") {
        Some(Verb::Backup)
    } else if is_verb(word, "RECOVER") {
        Some(Verb::Recover)
    } else if is_verb(word, "RESET") {
        Some(Verb::Reset)
    } else if is_verb(word, "DISPLAY") {
        Some(Verb::Display)
    } else {
        None
    }
}

/// The object of DISPLAY that a word names.
pub fn object_of(word: &Word) -> Option<Object>
    ensures { result ≡ object_of word.now }
{
    if has_key(word, "CFSTATUS") {
        Some(Object::Cfstatus)
    } else if has_key(word, "QUEUE") {
        Some(Object::Queue)
    } else if has_key(word, "SMDS") {
        Some(Object::Smds)
    } else {
        None
    }
}

/// Whether a word has this keyword.
pub fn has_keyword(word: &Word, keyword: Keyword) -> bool
    ensures { result ≡ has_keyword keyword word.now }
{
    has_key(word, keyword.text())
}

/// Whether a word is ACCESS or STATUS, of which a RESET has one.
fn is_wanted(word: &Word) -> bool
    ensures { result ≡ is_wanted word.now }
{
    has_keyword(word, Keyword::Access) || has_keyword(word, Keyword::Status)
}

/// Whether a word takes the place of one of this keyword.
fn takes_place(word: &Word, keyword: Keyword) -> bool
    ensures { result ≡ takes_place keyword word.now }
{
    match keyword {
        Keyword::Access | Keyword::Status => is_wanted(word),
        _ => has_keyword(word, keyword),
    }
}

/// The keyword of a word, among these.
fn keyword_of(allowed: &[Keyword], word: &Word) -> Option<Keyword>
    ensures { result ≡ keyword_of allowed.now word.now }
{
    allowed
        .iter()
        .copied()
        .find(|keyword| has_keyword(word, *keyword))
}

/// Whether the place of a keyword is taken by one of these words.
fn is_taken(words: &[Word], keyword: Keyword) -> bool
    ensures { result ≡ list_any (takes_place keyword) words.now }
{
    words.iter().any(|word| takes_place(word, keyword))
}

/// What is wrong with a word behind these, the first of which stands at this place.
fn word_fault(allowed: &[Keyword], first: u32, before: &[Word], word: &Word) -> Option<DefineFault>
    requires { first + length before.now < 2 ^ 32 }
    ensures { result ≡ word_fault allowed.now first before.now word.now }
{
    let place = first + before.len() as u32;
    match keyword_of(allowed, word) {
        None => Some(DefineFault::UnknownKeyword(place)),
        Some(keyword) if is_taken(before, keyword) => Some(DefineFault::Twice(place)),
        Some(keyword) => value_fault(place, keyword.form(), &word.value),
    }
}

/// The first fault of words, the first of which stands at this place.
fn words_fault(allowed: &[Keyword], first: u32, words: &[Word]) -> Option<DefineFault>
    requires { first + length words.now < 2 ^ 32 }
    ensures { result ≡ words_fault allowed.now first [] words.now }
{
    for (i, word) in words.iter().enumerate() {
        let fault = word_fault(allowed, first, &words[..i], word);
        if fault.is_some() {
            return fault;
        }
    }
    None
}

/// Whether a word says what is required.
fn says(word: &Word, required: Required) -> bool
    ensures { result ≡ says required word.now }
{
    match required {
        Required::Access => is_wanted(word),
        _ => has_key(word, required.text()),
    }
}

/// Whether one of these words says what is required.
fn is_said(words: &[Word], required: Required) -> bool
    ensures { result ≡ list_any (says required) words.now }
{
    words.iter().any(|word| says(word, required))
}

/// Whether none of these words says what is required.
fn is_absent(words: &[Word], required: Required) -> bool
    ensures { result ≡ is_absent words.now required }
{
    !is_said(words, required)
}

/// The first of the required keywords that is absent.
fn first_absent(required: &[Required], words: &[Word]) -> Option<Required>
    ensures { result ≡ find (is_absent words.now) required.now }
{
    required
        .iter()
        .copied()
        .find(|keyword| is_absent(words, *keyword))
}

/// The fault of an absent keyword.
fn missing_fault(required: &[Required], words: &[Word]) -> Option<DefineFault>
    ensures { result ≡ missing_fault required.now words.now }
{
    match first_absent(required, words) {
        Some(keyword) => Some(DefineFault::Missing(keyword)),
        None => None,
    }
}

/// The first fault of words that begin at this place: of one of them, and then of what is absent.
fn keywords_fault(
    allowed: &[Keyword],
    required: &[Required],
    first: u32,
    words: &[Word],
) -> Option<DefineFault>
    requires { first + length words.now < 2 ^ 32 }
    ensures { result ≡ keywords_fault allowed.now required.now first words.now }
{
    match words_fault(allowed, first, words) {
        None => missing_fault(required, words),
        fault => fault,
    }
}

/// The first fault behind the object of a DISPLAY.
fn shown_fault(object: Object, words: &[Word]) -> Option<DefineFault>
    requires { 2 + length words.now < 2 ^ 32 }
    ensures { result ≡ shown_fault object words.now }
{
    match object {
        Object::Cfstatus | Object::Queue => keywords_fault(&[], &[], 2, words),
        Object::Smds => keywords_fault(&[Keyword::Cfstruct], &[Required::Cfstruct], 2, words),
    }
}

/// The first fault behind DISPLAY.
fn display_fault(words: &[Word]) -> Option<DefineFault>
    requires { 1 + length words.now < 2 ^ 32 }
    ensures { result ≡ display_fault words.now }
{
    let [word, keywords @ ..] = words else {
        return Some(DefineFault::UnknownObject);
    };
    let Some(object) = object_of(word) else {
        return Some(DefineFault::UnknownObject);
    };
    match value_fault(1, object.form(), &word.value) {
        None => shown_fault(object, keywords),
        fault => fault,
    }
}

/// The first fault behind a verb.
fn verb_fault(verb: Verb, words: &[Word]) -> Option<DefineFault>
    requires { 1 + length words.now < 2 ^ 32 }
    ensures { result ≡ verb_fault (Some verb) words.now }
{
    match verb {
        Verb::Backup => keywords_fault(
            &[Keyword::Cfstruct, Keyword::Exclint],
            &[Required::Cfstruct],
            1,
            words,
        ),
        Verb::Recover => keywords_fault(
            &[Keyword::Cfstruct, Keyword::Type],
            &[Required::Cfstruct],
            1,
            words,
        ),
        Verb::Reset => keywords_fault(
            &[
                Keyword::Smds,
                Keyword::Cfstruct,
                Keyword::Access,
                Keyword::Status,
            ],
            &[Required::Smds, Required::Cfstruct, Required::Access],
            1,
            words,
        ),
        Verb::Display => display_fault(words),
    }
}

/// The first fault of the words of a command.
pub fn admin_fault(words: &[Word]) -> Option<DefineFault>
    requires { length words.now < 2 ^ 32 }
    ensures { result ≡ admin_fault words.now }
{
    let [word, behind @ ..] = words else {
        return Some(DefineFault::UnknownVerb);
    };
    match verb_of(word) {
        Some(verb) => verb_fault(verb, behind),
        None => Some(DefineFault::UnknownVerb),
    }
}
