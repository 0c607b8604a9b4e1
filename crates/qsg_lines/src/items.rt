//! What a statement or a comment gives.

ghost use Rattle.std.specs.Prelude.{◌≡◌, ◌≤◌, ℕ, length, Ok, Err, IfOk, if◌then◌else◌};
ghost use Rattle.std.specs.Str.{is_utf8};

use crate::joining::Joined;
use crate::kinds::{are_blank, is_long};
use qsg_num::Name;
use std::str;
use std::string::String;
use thiserror::Error;

/// What is wrong with a line, before its words are looked at.
#[derive(Clone, Copy, Debug, PartialEq, Eq, Error)]
pub enum LineFault {
    /// It has more than 4,096 bytes, or a line of its statement has.
    #[error("LongLine")]
    LongLine,
    /// It isn't UTF-8, or the text of its statement isn't.
    #[error("NotUtf8")]
    NotUtf8,
}

/// A statement, or a fault in its place; or the fault of a comment or blank line.
#[derive(Debug, Drop)]
pub struct Item {
    /// The line, counted from 1: the first one of a statement.
    pub line: u32,
    /// The text of the statement, its lines joined.
    pub text: Result<Name, LineFault>,
}

fn is_text(bytes: &[u8]) -> bool
    ensures { result ≡ is_utf8 bytes.now }
{
    str::from_utf8(bytes).is_ok()
}

/// The text of these bytes. Takes no memory.
fn text_of(bytes: Vec<u8>) -> Result<Name, LineFault>
    ensures value { result ≡ (if is_utf8 bytes.items then Ok bytes.items else Err LineFault.NotUtf8) }
    ensures ok { IfOk result (λ t. t ≡ bytes.items) }
{
    match String::from_utf8(bytes) {
        Ok(text) => Ok(Name::from_string(text)),
        Err(_) => Err(LineFault::NotUtf8),
    }
}

impl Item {
    ghost use Rattle.qsg_lines.specs.Items.{comment_at, statement_at, IsShort};

    fn fault(line: u32, why: LineFault) -> Item
        ensures { result ≡ record { line = line; text = Err why } }
    {
        Item {
            line,
            text: Err(why),
        }
    }

    /// The fault of a comment, if it has one.
    pub(crate) fn of_comment(line: u32, bytes: &[u8]) -> Option<Item>
        ensures value { result ≡ comment_at line bytes.now }
        ensures short { (most : ℕ) → IsShort most result }
    {
        if is_long(bytes) {
            Some(Item::fault(line, LineFault::LongLine))
        } else if !is_text(bytes) {
            Some(Item::fault(line, LineFault::NotUtf8))
        } else {
            None
        }
    }

    /// The text of a statement, or its fault; none where it has blanks alone.
    pub(crate) fn of_statement(line: u32, joined: Joined) -> Option<Item>
        ensures value { result ≡ statement_at line joined.long joined.text.items }
        ensures short { (most : ℕ) → length joined.text.items ≤ most → IsShort most result }
    {
        if joined.long {
            return Some(Item::fault(line, LineFault::LongLine));
        }
        match text_of(joined.text) {
            Ok(text) => {
                if are_blank(text.as_str().as_bytes()) {
                    None
                } else {
                    Some(Item {
                        line,
                        text: Ok(text),
                    })
                }
            }
            Err(why) => Some(Item::fault(line, why)),
        }
    }
}
