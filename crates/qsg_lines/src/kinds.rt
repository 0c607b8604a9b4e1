//! Kinds of lines: comments, long ones, and those that go on with the next.

ghost use Rattle.std.specs.Prelude.{◌≡◌, ◌≤◌, length};
ghost use Rattle.std.specs.List.{list_all};
ghost use Rattle.qsg_lines.specs.Lines.{is_blank, is_comment, is_long, sign_at, sign_of, front_of, part_of, without_indent, EndsAt};

use qsg_num::LINE_BYTES;

/// How a line goes on with the next.
#[derive(Clone, Copy, Debug)]
pub enum Sign {
    /// At the next line's first byte that isn't a blank.
    Plus,
    /// At the next line's start.
    Minus,
}

pub fn is_blank(byte: u8) -> bool
    ensures { result ≡ is_blank byte }
{
    byte == b' ' || byte == b'\t'
}

pub fn are_blank(bytes: &[u8]) -> bool
    ensures { result ≡ list_all is_blank bytes.now }
{
    bytes.iter().all(|b| is_blank(*b))
}

/// Whether a line is a comment: blanks alone, or with an asterisk at its start.
pub fn is_comment(line: &[u8]) -> bool
    ensures { result ≡ is_comment line.now }
{
    let is_starred = match line {
        [first, ..] => *first == b'*',
        [] => false,
    };
    is_starred || are_blank(line)
}

pub fn is_long(line: &[u8]) -> bool
    ensures { result ≡ is_long line.now }
{
    line.len() > LINE_BYTES
}

/// Where the blanks at the end of a line begin.
fn text_end(line: &[u8]) -> usize
    ensures { EndsAt line.now result }
{
    let mut end = line.len();
    while end > 0 {
        if !is_blank(line[end - 1]) {
            return end;
        }
        end -= 1;
    }
    end
}

/// The sign that a byte is.
fn sign_at(byte: u8) -> Option<Sign>
    ensures { result ≡ sign_at byte }
{
    match byte {
        b'+' => Some(Sign::Plus),
        b'-' => Some(Sign::Minus),
        _ => None,
    }
}

/// The line before the sign that is its last byte but for blanks, and that sign.
pub fn split_sign(line: &[u8]) -> (&[u8], Option<Sign>)
    ensures front { result.0.now ≡ front_of line.now }
    ensures sign { result.1 ≡ sign_of line.now }
    ensures short { length result.0.now ≤ length line.now }
{
    let end = text_end(line);
    if end == 0 {
        return (line, None);
    }
    match sign_at(line[end - 1]) {
        Some(sign) => (&line[..end - 1], Some(sign)),
        None => (line, None),
    }
}

/// The bytes from the first on that isn't a blank.
fn drop_indent(text: &[u8]) -> &[u8]
    ensures value { result.now ≡ without_indent text.now }
    ensures short { length result.now ≤ length text.now }
{
    let mut rest = text;
    while let [first, after @ ..] = rest {
        if !is_blank(*first) {
            return rest;
        }
        rest = after;
    }
    rest
}

/// What a statement that goes on by a sign takes of a text.
pub fn part_of(sign: Sign, text: &[u8]) -> &[u8]
    ensures value { result.now ≡ part_of sign text.now }
    ensures short { length result.now ≤ length text.now }
{
    match sign {
        Sign::Plus => drop_indent(text),
        Sign::Minus => text,
    }
}
