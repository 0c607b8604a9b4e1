//! The command that words without a fault are.

ghost use Rattle.std.specs.Prelude.{◌≡◌, true, None, Some, IfOk, find};
ghost use Rattle.std.specs.Option.{ForSome, option_copied};
ghost use Rattle.qsg_num.specs.Names.{is_queue_name};
ghost use Rattle.mqsc_values.specs.Names.{is_name};
ghost use Rattle.mqsc_define.specs.Definitions.{value_text, text_or_empty};
ghost use Rattle.mqsc_admin.specs.Faults.{has_keyword, object_fault, display_fault, verb_fault, admin_fault};
ghost use Rattle.mqsc_admin.specs.declared.keywords.Keyword.TheVariants as keyword;
ghost use Rattle.mqsc_admin.specs.Admins.{text_behind, name_behind, kind_of, wanted_of, shown_of, display_of, command_of, admin_of};

use crate::admins::Admin;
use crate::checking::{has_keyword, object_of, verb_of};
use crate::keywords::{Keyword, Object, Verb};
use crate::values::is_text;
use mqsc_lex::Word;
use mqsc_values::{copy_name, copy_queue_name};
use qsg_num::{Name, RecoverKind, Wanted};
use std::alloc::{AllocError, Global};

/// The text of a word's value, if it has one.
fn value_text(word: &Word) -> Option<&[u8]>
    ensures { option_copied result ≡ value_text word.now }
{
    match &word.value {
        Some(value) => Some(value.text.as_slice()),
        None => None,
    }
}

/// The first of these words that has this keyword.
fn word_with(words: &[Word], keyword: Keyword) -> Option<&Word>
    ensures { option_copied result ≡ find (has_keyword keyword) words.now }
{
    words.iter().find(|word| has_keyword(word, keyword))
}

/// The text behind a keyword, if that is there.
fn text_behind(words: &[Word], keyword: Keyword) -> Option<&[u8]>
    ensures { option_copied result ≡ text_behind keyword words.now }
{
    match word_with(words, keyword) {
        Some(word) => value_text(word),
        None => None,
    }
}

/// The name behind a keyword.
fn name_behind(alloc: Global, words: &[Word], keyword: Keyword) -> Result<Name, AllocError>
    requires { ForSome (text_behind keyword words.now) (λ text. is_name text ≡ true) }
    ensures { IfOk result (λ name. name ≡ name_behind keyword words.now) }
{
    match text_behind(words, keyword) {
        Some(text) => copy_name(alloc, text),
        None => Ok(Name::from_string(String::new(alloc))),
    }
}

/// The name of a structure that is a word's value.
fn structure_name(alloc: Global, word: &Word) -> Result<Name, AllocError>
    requires { ForSome (value_text word.now) (λ text. is_name text ≡ true) }
    ensures { IfOk result (λ name. name ≡ text_or_empty (value_text word.now)) }
{
    match value_text(word) {
        Some(text) => copy_name(alloc, text),
        None => Ok(Name::from_string(String::new(alloc))),
    }
}

/// The name of a queue that is a word's value.
fn queue_name(alloc: Global, word: &Word) -> Result<Name, AllocError>
    requires { ForSome (value_text word.now) (λ text. is_queue_name text ≡ true) }
    ensures { IfOk result (λ name. name ≡ text_or_empty (value_text word.now)) }
{
    match value_text(word) {
        Some(text) => Name::from_str(alloc, copy_queue_name(alloc, text)?.as_str()),
        None => Ok(Name::from_string(String::new(alloc))),
    }
}

/// What TYPE says, or its absence.
fn kind_of(words: &[Word]) -> RecoverKind
    ensures { result ≡ kind_of (text_behind keyword.Type words.now) }
{
    match text_behind(words, Keyword::Type) {
        Some(text) if is_text(text, "PURGE") => RecoverKind::Purge,
        _ => RecoverKind::Normal,
    }
}

/// What STATUS says, or in its absence ACCESS.
fn wanted_of(words: &[Word]) -> Wanted
    ensures { result ≡ wanted_of (text_behind keyword.Status words.now) (text_behind keyword.Access words.now) }
{
    if let Some(status) = text_behind(words, Keyword::Status) {
        if is_text(status, "FAILED") {
            return Wanted::StatusFailed;
        }
        return Wanted::StatusRecovered;
    }
    match text_behind(words, Keyword::Access) {
        Some(access) if is_text(access, "DISABLED") => Wanted::AccessDisabled,
        _ => Wanted::AccessEnabled,
    }
}

/// The DISPLAY of an object.
fn shown_of(alloc: Global, object: Object, word: &Word, words: &[Word]) -> Result<Admin, AllocError>
    requires { object_fault (Some object) word.now words.now ≡ None }
    ensures { IfOk result (λ a. a ≡ shown_of (Some object) (text_or_empty (value_text word.now)) words.now) }
{
    Ok(match object {
        Object::Cfstatus => Admin::DisplayCfstatus(structure_name(alloc, word)?),
        Object::Queue => Admin::DisplayQueue(queue_name(alloc, word)?),
        Object::Smds => Admin::DisplaySmds(name_behind(alloc, words, Keyword::Cfstruct)?),
    })
}

/// The command behind DISPLAY.
fn display_of(alloc: Global, words: &[Word]) -> Result<Admin, AllocError>
    requires { display_fault words.now ≡ None }
    ensures { IfOk result (λ a. a ≡ display_of words.now) }
{
    let [word, keywords @ ..] = words else {
        unreachable!()
    };
    let Some(object) = object_of(word) else {
        unreachable!()
    };
    shown_of(alloc, object, word, keywords)
}

/// The command behind a verb.
fn command_of(alloc: Global, verb: Verb, words: &[Word]) -> Result<Admin, AllocError>
    requires { verb_fault (Some verb) words.now ≡ None }
    ensures { IfOk result (λ a. a ≡ command_of (Some verb) words.now) }
{
    Ok(match verb {
        Verb::Backup => Admin::Backup(name_behind(alloc, words, Keyword::Cfstruct)?),
        Verb::Recover => {
            let structure = name_behind(alloc, words, Keyword::Cfstruct)?;
            Admin::Recover(structure, kind_of(words))
        }
        Verb::Reset => {
            let member = name_behind(alloc, words, Keyword::Smds)?;
            let structure = name_behind(alloc, words, Keyword::Cfstruct)?;
            Admin::ResetSmds(member, structure, wanted_of(words))
        }
        Verb::Display => return display_of(alloc, words),
    })
}

/// The command that words are.
pub fn admin_of(alloc: Global, words: &[Word]) -> Result<Admin, AllocError>
    requires { admin_fault words.now ≡ None }
    ensures { IfOk result (λ a. a ≡ admin_of words.now) }
{
    let [word, behind @ ..] = words else {
        unreachable!()
    };
    let Some(verb) = verb_of(word) else {
        unreachable!()
    };
    command_of(alloc, verb, behind)
}
