//! Small scripts, and the longest lines.

use crate::{LineFault, Statements};
use qsg_num::{LINE_BYTES, SCRIPT_BYTES};
use std::alloc::{AllocError, Global};
use std::string::String;
use std::test::Fail;

/// The first items of a script, each with its line, and the line after the last.
fn told(alloc: Global, script: &[u8]) -> Result<String, AllocError> {
    let mut out = String::new(alloc);
    if script.len() > SCRIPT_BYTES {
        return Ok(out);
    }
    let mut statements = Statements::new(script);
    for _ in 0..9 {
        let Some(item) = statements.next(alloc)? else {
            break;
        };
        let line = item.line;
        let text = match &item.text {
            Ok(text) => text.as_str(),
            Err(LineFault::LongLine) => "LongLine",
            Err(LineFault::NotUtf8) => "NotUtf8",
        };
        out.push_str(&format!(in alloc; "{line} {text}|")?)?;
    }
    let end = statements.end();
    out.push_str(&format!(in alloc; "end {end}")?)?;
    Ok(out)
}

#[test]
fn items_of_scripts(rt: HostRuntime) -> Result<(), Fail> {
    let alloc = rt.alloc();
    let cases: [(&[u8], &str); 14] = [
        (b"", "end 1"),
        (b"A", "1 A|end 2"),
        (b"A\r\nB\n", "1 A|2 B|end 3"),
        (b"A\rB\n\r", "1 A\rB|2 \r|end 3"),
        (b"* c\n \t\nA\n\n", "3 A|end 5"),
        (b"A +\n\t B\n", "1 A B|end 3"),
        (b"A -\n\t B", "1 A \t B|end 3"),
        (b"A+ \n*c\n\n  B- \n C\nD", "1 AB C|6 D|end 7"),
        (b"A ++\n* c\n", "1 A +|end 3"),
        (b" +\n\t-\n", "end 3"),
        (b"A +\n*\xff\nB\n*\xfe", "1 A B|2 NotUtf8|4 NotUtf8|end 5"),
        (b"\xff +\n*\xff\n", "1 NotUtf8|2 NotUtf8|end 3"),
        (b"\xc3-\n\xa9\n", "1 \u{e9}|end 3"),
        (b"\xc3\n\xa9\n", "1 NotUtf8|2 NotUtf8|end 3"),
    ];
    for (script, expected) in cases {
        let found = told(alloc, script)?;
        assert_eq!(rt; found.as_str(), expected);
    }
    Ok(())
}

/// A comment of 4,096 bytes before its carriage return; one of a byte more; and such a line of a statement.
#[test]
fn long_lines(rt: HostRuntime) -> Result<(), Fail> {
    let alloc = rt.alloc();
    let cases: [(&[u8], usize, &str); 3] = [
        (b"*", LINE_BYTES - 1, "3 NotUtf8|end 4"),
        (b"*", LINE_BYTES, "1 LongLine|3 NotUtf8|end 4"),
        (b"A+\n", LINE_BYTES + 1, "1 LongLine|4 NotUtf8|end 5"),
    ];
    for (front, bytes, expected) in cases {
        let mut script = Vec::from_slice(alloc, front)?;
        for _ in 0..bytes {
            script.push(b'x')?;
        }
        script.extend_from_slice(b"\r\n\n*\xff")?;
        let found = told(alloc, script.as_slice())?;
        assert_eq!(rt; found.as_str(), expected);
    }
    Ok(())
}
