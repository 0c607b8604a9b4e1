//! Rows of the table of words.

use super::*;
use std::test::*;

const SEEDED: Option<Command> = Some(Command::Replay(Some(7)));

/// What these words, with blanks between them, ask for.
fn asked(rt: &HostRuntime, line: &str) -> Result<Option<Command>, Fail> {
    let mut words = Vec::new(rt.alloc());
    for word in line.split(' ').filter(|w| !w.is_empty()) {
        words.push(String::from_str(rt.alloc(), word)?)?;
    }
    Ok(Command::of(rt.alloc(), words.as_slice()).ok())
}

#[test]
fn rows(rt: HostRuntime) -> Result<(), Fail> {
    for (line, command) in [
        ("replay", Some(Command::Replay(None))),
        ("-- replay", Some(Command::Replay(None))),
        ("check", Some(Command::Check)),
        ("replay --seed 7", SEEDED),
        ("--seed 7 replay", SEEDED),
        ("--seed=7 replay", SEEDED),
        ("replay --seed=007", SEEDED),
        ("--seed 7 -- replay", SEEDED),
        (
            "replay --seed 18446744073709551615",
            Some(Command::Replay(Some(u64::MAX))),
        ),
        ("replay --seed 18446744073709551616", None),
        ("replay --seed", None),
        ("replay --seed=", None),
        ("replay --seed +7", None),
        ("replay --seed 7 --seed 7", None),
        ("check --seed 7", None),
        ("replay 5", None),
        ("", None),
        ("run --seed 1", None),
        ("gen 5", None),
        ("gen", None),
        ("soak 5", None),
        ("run", None),
        ("Replay", None),
        ("--help", None),
        ("-- --seed 7", None),
    ] {
        assert_eq!(rt; asked(&rt, line)?, command, "{line}");
    }
    Ok(())
}
