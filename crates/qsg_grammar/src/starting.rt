//! The kind of a statement, by where it stands and by its first words.

ghost use Rattle.std.specs.Prelude.{◌≡◌, Some};
ghost use Rattle.mqsc_define.specs.Faults.{has_key, is_verb as is_define};
ghost use Rattle.mqsc_admin.specs.Faults.{is_verb};
ghost use Rattle.qsg_grammar.specs.Starting.{is_command, opening_kind, definition_kind, wait_row, task_kind, operator_kind, directive_kind, turn_kind, kind_in, kind_of};

use crate::kinds::{Kind, Row};
use mqsc_lex::Word;
use qsg_draft::{Draft, Stage};
use qsg_num::Actor;

/// Whether a word's plain key is this text. A quoted key never counts.
pub fn has_key(word: &Word, text: &str) -> bool
    ensures { result ≡ has_key text.now word.now }
{
    !word.key_quoted && word.key.is(text)
}

/// Whether a word is this verb, which has no value.
fn is_verb(word: &Word, text: &str) -> bool
    ensures { result ≡ is_verb text.now word.now }
{
    has_key(word, text) && word.value.is_none()
}

fn is_define(word: &Word) -> bool
    ensures { result ≡ is_define word.now }
{
    (has_key(word, "DEFINE") || has_key(word, "DEF")) && word.value.is_none()
}

/// Whether a word is the verb of a command.
fn is_command(word: &Word) -> bool
    ensures { result ≡ is_command word.now }
{
    is_verb(word, "BACKUP")
        || is_verb(word, "RECOVER")
        || is_verb(word, "RESET")
        || is_verb(word, "DISPLAY")
}

/// What opens a section, the schedule, or the end.
fn opening_kind(word: &Word) -> Option<Kind>
    ensures { result ≡ opening_kind word.now }
{
    if is_verb(word, "TASK") {
        Some(Kind::Listed(Row::Task))
    } else if is_verb(word, "OPERATOR") {
        Some(Kind::Listed(Row::Operator))
    } else if is_verb(word, "SCHEDULE") {
        Some(Kind::Listed(Row::Schedule))
    } else if is_verb(word, "END") {
        Some(Kind::Listed(Row::End))
    } else {
        None
    }
}

fn definition_kind(word: &Word) -> Option<Kind>
    ensures { result ≡ definition_kind word.now }
{
    if is_verb(word, "MEMBER") {
        Some(Kind::Listed(Row::Member))
    } else if is_define(word) {
        Some(Kind::Define)
    } else if is_verb(word, "FACILITY") {
        Some(Kind::Listed(Row::Facility))
    } else {
        None
    }
}

/// How WAIT goes on: with the plain word OPERATOR, or with a task.
fn wait_row(words: &[Word]) -> Row
    ensures { result ≡ wait_row words.now }
{
    match words {
        [word, ..] if has_key(word, "OPERATOR") => Row::WaitOperator,
        _ => Row::WaitTask,
    }
}

fn task_kind(word: &Word, words: &[Word]) -> Option<Kind>
    ensures { result ≡ task_kind word.now words.now }
{
    if is_verb(word, "PUT") {
        Some(Kind::Listed(Row::Put))
    } else if is_verb(word, "GET") {
        Some(Kind::Listed(Row::Get))
    } else if is_verb(word, "COMMIT") {
        Some(Kind::Listed(Row::Commit))
    } else if is_verb(word, "BACKOUT") {
        Some(Kind::Listed(Row::Backout))
    } else if is_verb(word, "WAIT") {
        Some(Kind::Listed(wait_row(words)))
    } else if is_command(word) {
        Some(Kind::Command)
    } else {
        None
    }
}

fn operator_kind(word: &Word, words: &[Word]) -> Option<Kind>
    ensures { result ≡ operator_kind word.now words.now }
{
    if is_verb(word, "CRASH") {
        Some(Kind::Listed(Row::Crash))
    } else if is_verb(word, "START") {
        Some(Kind::Listed(Row::Start))
    } else if is_verb(word, "STOP") {
        Some(Kind::Listed(Row::Stop))
    } else if is_verb(word, "LOSE") {
        Some(Kind::Listed(Row::Lose))
    } else if is_verb(word, "WAIT") {
        Some(Kind::Listed(wait_row(words)))
    } else {
        None
    }
}

fn directive_kind(actor: Actor, word: &Word, words: &[Word]) -> Option<Kind>
    ensures { result ≡ directive_kind actor word.now words.now }
{
    match actor {
        Actor::Task(_, _) => task_kind(word, words),
        Actor::Operator => operator_kind(word, words),
    }
}

/// A line of the schedule begins with a member, plain or quoted, or with the plain word OPERATOR. END is the end in
/// any case.
fn turn_kind(draft: &Draft, word: &Word) -> Option<Kind>
    ensures { result ≡ turn_kind draft.now word.now }
{
    if is_verb(word, "END") {
        Some(Kind::Listed(Row::End))
    } else if is_verb(word, "OPERATOR") {
        Some(Kind::Listed(Row::TurnOperator))
    } else if word.value.is_none() && draft.member_named(word.key.as_str()).is_some() {
        Some(Kind::Listed(Row::TurnTask))
    } else {
        None
    }
}

/// The kind of the statement that words are, behind what was read; None where the first of them has no place.
pub fn kind_of(draft: &Draft, words: &[Word]) -> Option<Kind>
    ensures { result ≡ kind_of draft.now words.now }
{
    let [word, behind @ ..] = words else {
        return None;
    };
    match draft.stage() {
        Stage::Start if is_verb(word, "GROUP") => Some(Kind::Listed(Row::Group)),
        Stage::Start | Stage::Ended => None,
        Stage::Definitions => definition_kind(word).or_else(|| opening_kind(word)),
        Stage::Section(actor) => directive_kind(actor, word, behind).or_else(|| opening_kind(word)),
        Stage::Schedule => turn_kind(draft, word),
    }
}
