//! The lines of one statement, joined.

ghost use Rattle.std.specs.Prelude.{◌≡◌, ◌+◌, ◌<◌, ◌≤◌, ◌^◌, ◌||◌, ◌++◌, length, IfOk};
ghost use Rattle.qsg_lines.specs.Lines.{lines_of, sign_of, front_of, is_long};
ghost use Rattle.qsg_lines.specs.Items.{taken};

use crate::kinds::{is_comment, is_long, part_of, split_sign};
use crate::lines::split_line;
use std::alloc::{AllocError, Global};

/// A statement.
#[derive(Drop)]
pub struct Joined {
    /// Its text.
    pub text: Vec<u8>,
    /// Whether one of its lines is too long.
    pub long: bool,
    /// How many lines belong to it besides its first, comments among them.
    pub lines: u32,
}

/// The statement that begins with a line, where these bytes stand behind it.
pub fn join(alloc: Global, line: &[u8], behind: &[u8]) -> Result<Joined, AllocError>
    requires { length behind.now < 2 ^ 32 }
    ensures text { IfOk result (λ j. j.text.items ≡ front_of line.now ++ (taken (sign_of line.now) (lines_of behind.now)).text) }
    ensures long { IfOk result (λ j. j.long ≡ is_long line.now || (taken (sign_of line.now) (lines_of behind.now)).long) }
    ensures lines { IfOk result (λ j. j.lines ≡ (taken (sign_of line.now) (lines_of behind.now)).lines) }
    ensures short { IfOk result (λ j. length j.text.items ≤ length line.now + length behind.now) }
{
    let (front, mut sign) = split_sign(line);
    let mut text = Vec::from_slice(alloc, front)?;
    let mut long = is_long(line);
    let mut lines = 0;
    let mut rest = behind;
    while let Some(open) = sign {
        if rest.is_empty() {
            break;
        }
        let (next, after) = split_line(rest);
        rest = after;
        lines += 1;
        if is_comment(next) {
            continue;
        }
        let (front, end) = split_sign(next);
        text.extend_from_slice(part_of(open, front))?;
        long = long || is_long(next);
        sign = end;
    }
    Ok(Joined { text, long, lines })
}
