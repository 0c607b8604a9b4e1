//! The reader of a script's statements.

ghost use Rattle.std.specs.Prelude.{ℕ, ◌≡◌, ◌+◌, ◌<◌, ◌≤◌, ◌∷◌, [], length, IfOk, OnErr, MatchOption, IfNone};
ghost use Rattle.qsg_lines.specs.Lines.{lines_of};

use crate::items::Item;
use crate::joining::join;
use crate::kinds::is_comment;
use crate::lines::split_line;
use qsg_num::SCRIPT_BYTES;
use std::alloc::{AllocError, Global};
use std::marker::Model;

/// Where a reader stands: before a line.
#[derive(Clone, Copy)]
struct Place<'a> {
    rest: &'a [u8],
    /// The number of the line at the front of the rest.
    line: u32,
    /// How many lines from there on belong to the statement that was read last.
    within: u32,
}

ghost use Rattle.qsg_lines.specs.Places.{IsRoom, end_at, items_at};
ghost use Rattle.qsg_lines.specs.Items.{before, IsShort};

/// The item of a line, if it has one, and the place behind the line.
fn step(alloc: Global, at: Place) -> Result<(Option<Item>, Place), AllocError>
    requires some { 0 < length at.rest.now }
    requires room { IsRoom at }
    ensures items { IfOk result (λ x. items_at at.entry ≡ before x.0 (items_at x.1)) }
    ensures end { IfOk result (λ x. end_at x.1 ≡ end_at at.entry) }
    ensures shorter { IfOk result (λ x. length x.1.rest.now < length at.entry.rest.now) }
    ensures short { IfOk result (λ x. (most : ℕ) → length at.entry.rest.now ≤ most → IsShort most x.0) }
    ensures room { IfOk result (λ x. IsRoom x.1) }
{
    let (line, rest) = split_line(at.rest);
    if is_comment(line) {
        let within = at.within.saturating_sub(1);
        return Ok((
            Item::of_comment(at.line, line),
            Place {
                rest,
                line: at.line + 1,
                within,
            },
        ));
    }
    if at.within > 0 {
        return Ok((
            None,
            Place {
                rest,
                line: at.line + 1,
                within: at.within - 1,
            },
        ));
    }
    let joined = join(alloc, line, rest)?;
    let within = joined.lines;
    Ok((
        Item::of_statement(at.line, joined),
        Place {
            rest,
            line: at.line + 1,
            within,
        },
    ))
}

/// The next item, if one is left, and the place behind its line.
fn next_item(alloc: Global, from: Place) -> Result<(Option<Item>, Place), AllocError>
    requires { IsRoom from }
    ensures items { IfOk result (λ x. items_at from.entry ≡ before x.0 (items_at x.1)) }
    ensures none { IfOk result (λ x. IfNone x.0 (items_at x.1 ≡ [])) }
    ensures end { IfOk result (λ x. end_at x.1 ≡ end_at from.entry) }
    ensures short { IfOk result (λ x. IsShort SCRIPT_BYTES x.0) }
    ensures room { IfOk result (λ x. IsRoom x.1) }
{
    let mut place = from;
    while !place.rest.is_empty() {
        let (item, after) = step(alloc, place)?;
        place = after;
        if item.is_some() {
            return Ok((item, place));
        }
    }
    Ok((None, place))
}

/// Reads the statements of a script, one at a time, with the faults of its lines. Contracts see the items
/// that are left, and the line after the last. Each line is joined to its statement once and passed over
/// once, so reading takes time linear in the bytes; one statement is in memory at a time.
#[derive(Drop)]
pub struct Statements<'a> {
    place: Place<'a>,
}

impl<'a> Model for Statements<'a> {
    ghost use Rattle.qsg_lines.specs.Items.{Remaining};
    ghost use Rattle.qsg_lines.specs.Places.{IsRoom, remaining_at};

    ghost Value = { Remaining };

    ghost view = { λ s. remaining_at s.place };

    ghost invariant = { λ s. IsRoom s.place };
}

impl<'a> Statements<'a> {
    ghost use Rattle.qsg_lines.specs.Items.{script_of};

    /// A reader of a script. Takes no memory.
    pub fn new(script: &'a [u8]) -> Statements<'a>
        requires { length script.now ≤ SCRIPT_BYTES }
        ensures { result ≡ script_of script.now }
    {
        Statements {
            place: Place {
                rest: script,
                line: 1,
                within: 0,
            },
        }
    }

    /// The next item; `None` where none is left. Want of memory leaves all that was left.
    pub fn next(&mut self, alloc: Global) -> Result<Option<Item>, AllocError>
        ensures items { IfOk result (λ item. MatchOption item (self.old.items ≡ []) (λ i. self.old.items ≡ i ∷ self.new.items)) }
        ensures none { IfOk result (λ item. IfNone item (self.new.items ≡ [])) }
        ensures end { self.new.end ≡ self.old.end }
        ensures short { IfOk result (IsShort SCRIPT_BYTES) }
        ensures err { OnErr result (self.new ≡ self.old) }
    {
        let (item, place) = next_item(alloc, self.place)?;
        self.place = place;
        Ok(item)
    }

    /// The line after the script's last one. It goes over what is left of the script.
    pub fn end(&self) -> u32
        ensures value { result ≡ self.now.end }
        ensures bound { result ≤ SCRIPT_BYTES + 1 }
    {
        let mut rest = self.place.rest;
        let mut line = self.place.line;
        while !rest.is_empty() {
            rest = split_line(rest).1;
            line += 1;
        }
        line
    }
}
