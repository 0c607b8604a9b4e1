//! What words without a fault define.

ghost use Rattle.std.specs.Prelude.{◌≡◌, ◌≤◌, ◌<◌, ◌^◌, ℕ, true, None, IfOk, IfSome, find};
ghost use Rattle.std.specs.Option.{ForSome, option_copied};
ghost use Rattle.mqsc_values.specs.Names.{is_name};
ghost use Rattle.mqsc_define.specs.Faults.{has_keyword, define_fault};
ghost use Rattle.mqsc_define.specs.Definitions.{value_text, text_behind, number_or, text_or_empty, is_said, count_or, kilobytes_or, block_or, priority_or, buffers_of, expands_of, rules_of, delivery_of, structure_of, queue_of, definition_of};
ghost use Rattle.mqsc_define.specs.declared.keywords.Keyword.TheVariants as keyword;
ghost use Rattle.qsg_num.specs.declared.seats.Priority.TheVariants as priority;

use crate::checking::{has_keyword, object_of};
use crate::keywords::{Keyword, Object};
use crate::limits::{
    BLOCK_DEFAULT, BUFFERS, DEEPEST, HIGHEST_PRIORITY, LONGEST_MESSAGE, MESSAGE_DEFAULT, PERCENT,
    RULE_KILOBYTES, SIZE_DEFAULTS, THRESHOLD_DEFAULTS,
};
use crate::values::{is_text, read_block, read_kilobytes};
use mqsc_lex::Word;
use mqsc_values::{Number, copy_name, copy_queue_name, read_number};
use qsg_num::{Bytes, Delivery, Name, Priority, QueueName, Rules};
use qsg_objects::{CfstructDef, Definition, QlocalDef};
use std::alloc::{AllocError, Global};

/// The text of a word's value, if it has one.
fn value_text(word: &Word) -> Option<&[u8]>
    ensures { option_copied result ≡ value_text word.now }
{
    match &word.value {
        Some(value) => Some(value.text.as_slice()),
        None => None,
    }
}

/// The first word that has a keyword.
fn word_of(words: &[Word], keyword: Keyword) -> Option<&Word>
    ensures { option_copied result ≡ find (has_keyword keyword) words.now }
{
    words.iter().find(|word| has_keyword(word, keyword))
}

/// The text behind a keyword, if that is there.
fn text_behind(words: &[Word], keyword: Keyword) -> Option<&[u8]>
    ensures { option_copied result ≡ text_behind keyword words.now }
{
    match word_of(words, keyword) {
        Some(word) => value_text(word),
        None => None,
    }
}

fn number_or(default: u64, number: Number) -> u64
    ensures { result ≡ number_or default number }
{
    match number {
        Number::Value(value) => value,
        Number::TooLarge | Number::Bad => default,
    }
}

/// Whether the text behind a keyword is this one.
fn is_said(words: &[Word], keyword: Keyword, wanted: &str, default: bool) -> bool
    ensures { result ≡ is_said wanted.now default (text_behind keyword words.now) }
{
    match text_behind(words, keyword) {
        Some(text) => is_text(text, wanted),
        None => default,
    }
}

/// The number behind a keyword.
fn count(words: &[Word], keyword: Keyword, most: u64, default: u64) -> u64
    requires { default ≤ most }
    ensures value { result ≡ count_or default most (text_behind keyword words.now) }
    ensures bound { result ≤ most }
{
    match text_behind(words, keyword) {
        Some(text) => number_or(default, read_number(text, most)),
        None => default,
    }
}

/// The threshold of a rule, in percent.
fn threshold(words: &[Word], keyword: Keyword, default: u64) -> u8
    requires { default ≤ 100 }
    ensures { result ≡ count_or default 100 (text_behind keyword words.now) }
{
    count(words, keyword, PERCENT, default) as u8
}

/// The size of a rule, in units of 1,024 bytes.
fn rule_size(words: &[Word], keyword: Keyword, default: u64) -> u8
    requires { default ≤ 64 }
    ensures { result ≡ kilobytes_or default (text_behind keyword words.now) }
{
    match text_behind(words, keyword) {
        Some(text) => number_or(default, read_kilobytes(text, RULE_KILOBYTES)) as u8,
        None => default as u8,
    }
}

/// The offload rules.
fn rules(words: &[Word]) -> Rules
    ensures { result ≡ rules_of words.now }
{
    let [first, second, third] = THRESHOLD_DEFAULTS;
    let [large, middle, small] = SIZE_DEFAULTS;
    Rules {
        threshold: [
            threshold(words, Keyword::Offld1th, first),
            threshold(words, Keyword::Offld2th, second),
            threshold(words, Keyword::Offld3th, third),
        ],
        size_k: [
            rule_size(words, Keyword::Offld1sz, large),
            rule_size(words, Keyword::Offld2sz, middle),
            rule_size(words, Keyword::Offld3sz, small),
        ],
    }
}

/// The bytes of a block.
fn block(words: &[Word]) -> u32
    ensures { result ≡ block_or 262144 (text_behind keyword.Dsblock words.now) }
{
    match text_behind(words, Keyword::Dsblock) {
        Some(text) => read_block(text).unwrap_or(BLOCK_DEFAULT),
        None => BLOCK_DEFAULT,
    }
}

/// How many buffers, where a word says it.
fn buffers(words: &[Word]) -> Option<u16>
    ensures { result ≡ buffers_of (text_behind keyword.Dsbufs words.now) }
{
    match text_behind(words, Keyword::Dsbufs) {
        Some(text) => Some(number_or(0, read_number(text, BUFFERS)) as u16),
        None => None,
    }
}

/// Whether data sets expand, where a word says it.
fn expands(words: &[Word]) -> Option<bool>
    ensures { result ≡ expands_of (text_behind keyword.Dsexpand words.now) }
{
    match text_behind(words, Keyword::Dsexpand) {
        Some(text) => Some(is_text(text, "YES")),
        None => None,
    }
}

/// The priority of a message whose put names none.
fn priority(words: &[Word]) -> Priority
    ensures { result ≡ priority_or priority.Zero (count_or 0 9 (text_behind keyword.Defprty words.now)) }
{
    let number = count(words, Keyword::Defprty, HIGHEST_PRIORITY, 0) as u8;
    Priority::new(number).unwrap_or(Priority::Zero)
}

/// Whether it is FIFO, else PRIORITY.
fn delivery(fifo: bool) -> Delivery
    ensures { result ≡ delivery_of fifo }
{
    if fifo {
        Delivery::Fifo
    } else {
        Delivery::Priority
    }
}

/// A copy of the text behind a keyword, if that is there.
fn copy_text(alloc: Global, words: &[Word], keyword: Keyword) -> Result<Option<Bytes>, AllocError>
    ensures { IfOk result (λ text. text ≡ text_behind keyword words.now) }
{
    match text_behind(words, keyword) {
        Some(text) => Ok(Some(Bytes::from_slice(alloc, text)?)),
        None => Ok(None),
    }
}

/// The structure of a name and of keywords.
fn structure_of(alloc: Global, name: Name, words: &[Word]) -> Result<CfstructDef, AllocError>
    ensures { IfOk result (λ d. d ≡ structure_of name words.now) }
{
    let dsgroup = match copy_text(alloc, words, Keyword::Dsgroup)? {
        Some(text) => text,
        None => Bytes::from_vec(Vec::new(alloc)),
    };
    let descr = copy_text(alloc, words, Keyword::Descr)?;
    Ok(CfstructDef {
        name,
        dsgroup,
        recover: is_said(words, Keyword::Recover, "YES", true),
        rules: rules(words),
        dsblock: block(words),
        dsbufs: buffers(words),
        dsexpand: expands(words),
        descr,
    })
}

/// The queue of a name and of keywords, the name of whose structure is one.
fn queue_of(alloc: Global, name: QueueName, words: &[Word]) -> Result<QlocalDef, AllocError>
    requires { ForSome (text_behind keyword.Cfstruct words.now) (λ text. is_name text ≡ true) }
    ensures { IfOk result (λ d. d ≡ queue_of name words.now) }
{
    let cfstruct = match text_behind(words, Keyword::Cfstruct) {
        Some(text) => copy_name(alloc, text)?,
        None => Name::from_string(String::new(alloc)),
    };
    let descr = copy_text(alloc, words, Keyword::Descr)?;
    Ok(QlocalDef {
        name,
        cfstruct,
        put: is_said(words, Keyword::Put, "ENABLED", true),
        get: is_said(words, Keyword::Get, "ENABLED", true),
        defprty: priority(words),
        defpsist: is_said(words, Keyword::Defpsist, "YES", false),
        msgdlvsq: delivery(is_said(words, Keyword::Msgdlvsq, "FIFO", false)),
        maxdepth: count(words, Keyword::Maxdepth, DEEPEST, DEEPEST) as u32,
        maxmsgl: count(words, Keyword::Maxmsgl, LONGEST_MESSAGE, MESSAGE_DEFAULT) as u32,
        descr,
    })
}

/// What the words of a DEFINE without a fault define.
pub fn definition_of(alloc: Global, words: &[Word]) -> Result<Definition, AllocError>
    requires { define_fault words.now ≡ None }
    ensures { IfOk result (λ d. d ≡ definition_of words.now) }
{
    let [_, word, keywords @ ..] = words else {
        unreachable!()
    };
    let Some(name) = value_text(word) else {
        unreachable!()
    };
    match object_of(word) {
        Some(Object::Cfstruct) => {
            let name = copy_name(alloc, name)?;
            Ok(Definition::Cfstruct(structure_of(alloc, name, keywords)?))
        }
        Some(Object::Qlocal) => {
            let name = copy_queue_name(alloc, name)?;
            Ok(Definition::Qlocal(queue_of(alloc, name, keywords)?))
        }
        None => unreachable!(),
    }
}
