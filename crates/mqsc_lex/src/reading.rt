//! The words of a text, or its leftmost fault.

ghost use Rattle.std.specs.Prelude.{◌≡◌, ◌+◌, ◌<◌, ◌↔◌, IsTrue, IfSome, ◌≤◌, ◌^◌, ◌∷◌, [], List, ℕ, length, not, IfOk, IfErr, MatchOption, Ok, Err, string_bytes};
ghost use Rattle.std.specs.List.{position};
ghost use Rattle.mqsc_lex.specs.Texts.{is_bad, is_blank, BeginsOther};
ghost use Rattle.mqsc_lex.specs.Words.{IsValueAt, IsWordAt, EndsWord, IsWordsThen, AreWordsOf};
ghost use Rattle.mqsc_lex.specs.Faults.{IsFaultAt, earlier, HasForm, IsLeftmost, Says, Gives};
ghost use Rattle.mqsc_lex.specs.Reading.{HasNoText, IsInside, IsValueFault};
ghost use Rattle.mqsc_lex.specs.declared.words.Word.{Word};
ghost use Rattle.mqsc_lex.specs.declared.faults.LexFault.{LexFault};

use crate::faults::{LexError, LexFault};
use crate::texts::{
    APOSTROPHE, CLOSE, OPEN, Piece, begins_with, behind_blanks, behind_first, text_at,
};
use crate::words::{Text, Word, Words};
use qsg_num::{Bytes, Name};
use std::alloc::{AllocError, Global};

/// What stands behind an opening parenthesis.
#[derive(Drop)]
enum Inside<'a> {
    /// A text and the closing one, and this behind it.
    Text(Text, &'a str),
    /// The closing one without a text.
    Empty,
    /// Neither.
    Open,
}

fn text_of(piece: Piece) -> Text
    ensures text { result.text ≡ string_bytes piece.text }
    ensures quoted { result.quoted ≡ piece.quoted }
{
    Text {
        text: Bytes::from_vec(piece.text.into_bytes()),
        quoted: piece.quoted,
    }
}

/// What stands behind an opening parenthesis.
fn inside_at(alloc: Global, inside: &str) -> Result<Inside<'_>, AllocError>
    ensures { IfOk result (IsInside inside.now) }
{
    let front = behind_blanks(inside);
    if begins_with(front, CLOSE) {
        return Ok(Inside::Empty);
    }
    let Some((piece, after)) = text_at(alloc, front)? else {
        return Ok(Inside::Open);
    };
    let close = behind_blanks(after);
    if begins_with(close, CLOSE) {
        Ok(Inside::Text(text_of(piece), behind_first(close)))
    } else {
        Ok(Inside::Open)
    }
}

/// The place of what is left of a text of so many bytes.
fn place_of(total: u32, left: &str) -> u32
    requires { length left.now ≤ total }
    ensures { result + length left.now ≡ total }
{
    total - left.len() as u32
}

/// The value behind a key, or none, and what stands behind it.
fn value_at(alloc: Global, total: u32, behind: &str) -> Result<(Option<Text>, &str), LexError>
    requires { length behind.now ≤ total }
    ensures ok { IfOk result (λ x. IsValueAt x.0 behind.now x.1.now) }
    ensures shorter { IfOk result (λ x. length x.1.now ≤ length behind.now) }
    ensures fault { IfErr result (Says (IsValueFault total behind.now)) }
{
    if !begins_with(behind, OPEN) {
        return Ok((None, behind));
    }
    let at = place_of(total, behind);
    match inside_at(alloc, behind_first(behind))? {
        Inside::Text(text, rest) => Ok((Some(text), rest)),
        Inside::Empty => Err(LexError::Fault(LexFault::EmptyValue(at))),
        Inside::Open => Err(LexError::Fault(LexFault::UnclosedParen(at))),
    }
}

/// The fault of a word that begins with no text.
fn no_text(total: u32, text: &str) -> LexFault
    requires some { 0 < length text.now }
    requires no_blank { BeginsOther is_blank text.now }
    requires none { HasNoText text.now }
    requires fits { length text.now ≤ total }
    ensures { IsFaultAt total result text.now }
{
    let at = place_of(total, text);
    if begins_with(text, APOSTROPHE) {
        LexFault::UnclosedText(at)
    } else {
        LexFault::BadByte(at)
    }
}

/// Whether a word ends here: before a blank, or at the end.
fn ends_word(rest: &str) -> bool
    ensures { IsTrue result ↔ EndsWord rest.now }
{
    rest.is_empty() || begins_with(rest, b' ') || begins_with(rest, b'\t')
}

/// The word at the front, and what stands behind it: nothing, or a blank first.
fn word_at(alloc: Global, total: u32, text: &str) -> Result<(Word, &str), LexError>
    requires some { 0 < length text.now }
    requires no_blank { BeginsOther is_blank text.now }
    requires fits { length text.now ≤ total }
    ensures ok { IfOk result (λ x. IsWordAt total x.0 text.now x.1.now × EndsWord x.1.now) }
    ensures shorter { IfOk result (λ x. length x.1.now < length text.now) }
    ensures fault { IfErr result (Says (λ f. IsFaultAt total f text.now)) }
{
    let Some((piece, behind)) = text_at(alloc, text)? else {
        return Err(LexError::Fault(no_text(total, text)));
    };
    let (value, rest) = value_at(alloc, total, behind)?;
    let end = place_of(total, rest);
    if !ends_word(rest) {
        return Err(LexError::Fault(LexFault::BadByte(end)));
    }
    let word = Word {
        start: place_of(total, text),
        end,
        key: Name::from_string(piece.text),
        key_quoted: piece.quoted,
        value,
    };
    Ok((word, rest))
}

/// The words of a text, if no byte counts as bad.
fn words_of(alloc: Global, text: &str) -> Result<Vec<Word>, LexError>
    requires { length text.now < 2 ^ 32 }
    ensures ok { IfOk result (λ words. IsWordsThen (λ back. back ≡ []) (length text.now) words.items text.now) }
    ensures few { IfOk result (λ words. length words.items ≤ length text.now) }
    ensures fault { IfErr result (Says (λ f. HasForm f text.now)) }
{
    let total = text.len() as u32;
    let mut words = Vec::new(alloc);
    let mut rest = behind_blanks(text);
    while !rest.is_empty() {
        let (word, behind) = word_at(alloc, total, rest)?;
        words.push(word)?;
        rest = behind_blanks(behind);
    }
    Ok(words)
}

/// Whether a byte has no place anywhere: it is below 32 and no tab.
fn is_bad(byte: u8) -> bool
    ensures { result ≡ is_bad byte }
{
    byte < 32 && byte != b'\t'
}

/// The first such byte.
fn first_bad(text: &str) -> Option<usize>
    ensures { result ≡ position is_bad text.now }
{
    text.as_bytes().iter().position(|b| is_bad(*b))
}

/// The fault that is further left: a bad byte, or another.
fn earlier(bad: Option<usize>, fault: LexFault) -> LexFault
    requires { IfSome bad (λ at. at < 2 ^ 32) }
    ensures { result ≡ earlier bad fault }
{
    match bad {
        Some(at) if at as u32 <= fault.place() => LexFault::BadByte(at as u32),
        _ => fault,
    }
}

/// The words of a text of less than 2^32 bytes.
pub fn lex(alloc: Global, text: &str) -> Result<Words, LexError>
    requires { length text.now < 2 ^ 32 }
    // What is read is the text's words.
    ensures words { IfOk result (λ words. AreWordsOf words text.now) }
    ensures few { IfOk result (λ words. length words ≤ length text.now) }
    // A fault is the leftmost one.
    ensures fault { IfErr result (Says (λ f. IsLeftmost f text.now)) }
    // Unless memory runs out, words are read as these,
    ensures reads { (words : List Word) → AreWordsOf words text.now → Gives (Ok words) result }
    // and what has a leftmost fault is refused with it.
    ensures refuses { (f : LexFault) → IsLeftmost f text.now → Gives (Err f) result }
{
    let bad = first_bad(text);
    match words_of(alloc, text) {
        Ok(words) => match bad {
            None => Ok(Words::from_vec(words)),
            Some(at) => Err(LexError::Fault(LexFault::BadByte(at as u32))),
        },
        Err(LexError::Fault(fault)) => Err(LexError::Fault(earlier(bad, fault))),
        Err(LexError::NoMemory) => Err(LexError::NoMemory),
    }
}
