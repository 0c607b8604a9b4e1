//! Plain and quoted texts, and the blanks round them.

ghost use Rattle.std.specs.Prelude.{◌≡◌, ◌++◌, ◌∷◌, List, ℕ, not, take, drop, length, ◌<◌, ◌≤◌, ◌↔◌, IsTrue, get_or, IfOk, MatchOption, string_bytes, true};
ghost use Rattle.std.specs.List.{position};
ghost use Rattle.mqsc_lex.specs.Texts.{is_blank, is_plain, is_apostrophe, AreAll, BeginsOther, doubled, IsTextAt, IsUnclosed};
ghost use Rattle.mqsc_lex.specs.Reading.{IsCut, HasNoText, IsQuotedRest};

use std::alloc::{AllocError, Global};

/// The apostrophe, which opens and closes a quoted text.
pub(crate) const APOSTROPHE: u8 = 39;
/// The parenthesis that opens a value.
pub(crate) const OPEN: u8 = 40;
/// The parenthesis that closes a value.
pub(crate) const CLOSE: u8 = 41;

/// A text that was read.
#[derive(Drop)]
pub(crate) struct Piece {
    pub(crate) text: String,
    pub(crate) quoted: bool,
}

fn is_blank(byte: u8) -> bool
    ensures { result ≡ is_blank byte }
{
    byte == b' ' || byte == b'\t'
}

fn is_plain(byte: u8) -> bool
    ensures { result ≡ is_plain byte }
{
    !(is_blank(byte) || byte == APOSTROPHE || byte == OPEN || byte == CLOSE)
}

/// Whether a text begins with this byte.
pub(crate) fn begins_with(text: &str, byte: u8) -> bool
    ensures { IsTrue result ↔ ((rest : List ℕ) × (text.now ≡ byte ∷ rest)) }
{
    let bytes = text.as_bytes();
    !bytes.is_empty() && bytes[0] == byte
}

/// The text behind its first byte, which is ASCII.
pub(crate) fn behind_first(text: &str) -> &str
    requires some { 0 < length text.now }
    requires ascii { get_or text.now 0 0 < 128 }
    ensures { text.now ≡ get_or text.now 0 0 ∷ result.now }
{
    text.split_at(1).1
}

fn first_unblank(bytes: &[u8]) -> Option<usize>
    ensures { result ≡ position (λ b. not (is_blank b)) bytes.now }
{
    bytes.iter().position(|b| !is_blank(*b))
}

fn first_unplain(bytes: &[u8]) -> Option<usize>
    ensures { result ≡ position (λ b. not (is_plain b)) bytes.now }
{
    bytes.iter().position(|b| !is_plain(*b))
}

fn first_apostrophe(bytes: &[u8]) -> Option<usize>
    ensures { result ≡ position is_apostrophe bytes.now }
{
    bytes.iter().position(|b| *b == APOSTROPHE)
}

/// The text behind the blanks at its front.
pub(crate) fn behind_blanks(text: &str) -> &str
    ensures { (blanks : List ℕ) × IsCut is_blank text.now blanks result.now }
{
    let end = first_unblank(text.as_bytes()).unwrap_or(text.len());
    text.split_at(end).1
}

/// The plain text at the front, empty if there is none, and what stands behind it.
fn cut_plain(text: &str) -> (&str, &str)
    ensures { IsCut is_plain text.now result.0.now result.1.now }
{
    let end = first_unplain(text.as_bytes()).unwrap_or(text.len());
    text.split_at(end)
}

/// The text up to the next apostrophe, and what stands from there on.
fn cut_quoted(text: &str) -> (&str, &str)
    ensures { IsCut (λ b. not (is_apostrophe b)) text.now result.0.now result.1.now }
{
    let end = first_apostrophe(text.as_bytes()).unwrap_or(text.len());
    text.split_at(end)
}

/// The quoted text behind its opening apostrophe, and what stands behind its closing one; None where it isn't
/// closed.
fn quoted_text(alloc: Global, inside: &str) -> Result<Option<(String, &str)>, AllocError>
    ensures { IfOk result (λ found. MatchOption found
        ((text : List ℕ) × (inside.now ≡ doubled text))
        (λ x. IsQuotedRest (string_bytes x.0) inside.now x.1.now)) }
{
    let mut text = String::new(alloc);
    let mut rest = inside;
    while !rest.is_empty() {
        let (front, back) = cut_quoted(rest);
        text.push_str(front)?;
        if back.is_empty() {
            return Ok(None);
        }
        let after = behind_first(back);
        if !begins_with(after, APOSTROPHE) {
            return Ok(Some((text, after)));
        }
        text.push('\'')?;
        rest = behind_first(after);
    }
    Ok(None)
}

/// The text at the front, plain or quoted, and what stands behind it; None where there is none, or a quoted one
/// isn't closed.
pub(crate) fn text_at(alloc: Global, text: &str) -> Result<Option<(Piece, &str)>, AllocError>
    ensures { IfOk result (λ found. MatchOption found
        (HasNoText text.now)
        (λ x. IsTextAt x.0.quoted (string_bytes x.0.text) text.now x.1.now)) }
{
    if begins_with(text, APOSTROPHE) {
        let Some((text, rest)) = quoted_text(alloc, behind_first(text))? else {
            return Ok(None);
        };
        return Ok(Some((Piece { text, quoted: true }, rest)));
    }
    let (front, rest) = cut_plain(text);
    if front.is_empty() {
        return Ok(None);
    }
    let text = front.to_ascii_uppercase(alloc)?;
    Ok(Some((
        Piece {
            text,
            quoted: false,
        },
        rest,
    )))
}
