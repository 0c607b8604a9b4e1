//! Texts of statements behind others, with what they mean and with their printed faults.

ghost use Rattle.std.specs.Prelude.{◌≡◌, OnOk};
ghost use Rattle.qsg_statement.specs.Taking.{Fits, taken};

use crate::{Statement, StatementError, read_statement};
use qsg_draft::Draft;
use qsg_num::{Actor, Member, SCRIPT_BYTES, TaskNo};
use qsg_objects::{BodyWord, Directive};
use std::alloc::{AllocError, Global};
use std::test::Fail;

/// The definitions of a small script.
const DEFINITIONS: [&str; 4] = [
    "GROUP QSG1",
    "MEMBER QM1 LOG(64)",
    "DEFINE CFSTRUCT(APP1) CFLEVEL(5) OFFLOAD(SMDS) DSGROUP('A.*')",
    "DEFINE QLOCAL(Q1) QSGDISP(SHARED) CFSTRUCT(APP1)",
];

fn take(draft: &mut Draft, statement: Statement) -> Result<(), AllocError>
    requires { Fits statement draft.old }
{
    match statement {
        Statement::Group(name) => draft.start(name),
        Statement::Member(member) => draft.add_member(member)?,
        Statement::Define(definition) => draft.define(definition)?,
        Statement::Facility { structure, size } => draft.add_facility(structure, size)?,
        Statement::Task(member, task) => draft.open_section(Actor::Task(member, task))?,
        Statement::Operator => draft.open_section(Actor::Operator)?,
        Statement::Directive(directive) => draft.add_directive(directive)?,
        Statement::Schedule => draft.open_schedule(),
        Statement::Turn(actor, count) => draft.add_turn(actor, count)?,
        Statement::End => draft.end(),
    }
    Ok(())
}

/// Reads and takes statements.
fn take_all(alloc: Global, draft: &mut Draft, texts: &[&str]) -> Result<(), AllocError> {
    for text in texts {
        if text.len() <= SCRIPT_BYTES {
            if let Ok(statement) = read_statement(alloc, draft, text) {
                take(draft, statement)?;
            }
        }
    }
    Ok(())
}

/// A draft behind the definitions of a small script and these statements.
fn draft_behind(alloc: Global, texts: &[&str]) -> Result<Draft, AllocError> {
    let mut draft = Draft::new(alloc);
    take_all(alloc, &mut draft, &DEFINITIONS)?;
    take_all(alloc, &mut draft, texts)?;
    Ok(draft)
}

/// Whether a text has this printed fault.
fn has_why(alloc: Global, draft: &Draft, text: &str, expected: &str) -> bool {
    if text.len() > SCRIPT_BYTES {
        return false;
    }
    match read_statement(alloc, draft, text) {
        Err(StatementError::Fault(why)) => match why.text(alloc) {
            Ok(told) => told.as_slice() == expected.as_bytes(),
            Err(_) => false,
        },
        _ => false,
    }
}

/// The first of these texts that hasn't the printed fault beside it.
fn first_wrong(alloc: Global, draft: &Draft, rows: &[(&str, &str)]) -> Option<usize> {
    rows.iter()
        .position(|row| !has_why(alloc, draft, row.0, row.1))
}

#[test]
fn first_statements(rt: HostRuntime) {
    let draft = Draft::new(rt.alloc());
    let rows = [
        ("GROUP 'A", "UnclosedText 6"),
        ("'GROUP' QSG1", "NoGroup"),
        ("GROUP", "Missing NAME"),
        ("GROUP QSG12(3)", "BadName QSG12(3)"),
        ("GROUP 'Q' X(1)", "UnknownWord X(1)"),
    ];
    assert_eq!(rt; first_wrong(rt.alloc(), &draft, &rows), None);
}

#[test]
fn definitions(rt: HostRuntime) -> Result<(), Fail> {
    let draft = draft_behind(rt.alloc(), &["FACILITY APP1"])?;
    let rows = [
        ("MEMBER QM1 LOG(0)", "Repeated QM1"),
        ("MEMBER QM2 LOG(0) LOG", "BadNumber LOG(0)"),
        ("FACILITY APP2", "UnknownName APP2"),
        ("FACILITY APP1 BLOCKS(257)", "Repeated APP1"),
        ("DEFINE;", "UnknownWord DEFINE;"),
    ];
    assert_eq!(rt; first_wrong(rt.alloc(), &draft, &rows), None);
    Ok(())
}

#[test]
fn blocks(rt: HostRuntime) -> Result<(), Fail> {
    let alloc = rt.alloc();
    let draft = draft_behind(alloc, &[])?;
    let why = "TooLarge 67108864";
    assert!(rt; has_why(alloc, &draft, "FACILITY APP1 BLOCKS(257)", why));
    assert!(rt;
        has_why(
            alloc,
            &draft,
            "FACILITY APP1 BLOCKS(99999999999999999999)",
            why
        )
    );
    assert!(rt; !has_why(alloc, &draft, "FACILITY APP1 BLOCKS(256)", why));
    assert!(rt;
        has_why(
            alloc,
            &draft,
            "FACILITY APP1 BLOCKS(0)",
            "BadNumber BLOCKS(0)"
        )
    );
    Ok(())
}

/// With eight members, two structures of the largest data sets take more than all devices may.
#[test]
fn devices(rt: HostRuntime) -> Result<(), Fail> {
    let alloc = rt.alloc();
    let mut draft = draft_behind(alloc, &["FACILITY APP1 BLOCKS(256)"])?;
    let members = [
        "MEMBER A", "MEMBER B", "MEMBER C", "MEMBER D", "MEMBER E", "MEMBER F", "MEMBER G",
    ];
    take_all(alloc, &mut draft, &members)?;
    assert!(rt; has_why(alloc, &draft, "MEMBER", "TooMany 8"));
    assert!(rt; has_why(alloc, &draft, "END X", "UnknownWord X"));
    let second = [
        "DEFINE CFSTRUCT(APP2) CFLEVEL(5) OFFLOAD(SMDS) DSGROUP('B.*')",
        "FACILITY APP2 BLOCKS(256)",
    ];
    take_all(alloc, &mut draft, &second)?;
    assert!(rt; has_why(alloc, &draft, "END X", "TooLarge 1073741824"));
    Ok(())
}

#[test]
fn definitions_and_commands(rt: HostRuntime) -> Result<(), Fail> {
    let alloc = rt.alloc();
    let draft = draft_behind(alloc, &[])?;
    let rows = [
        ("def cfstruct(APP2) cflevel(4) ;", "LevelNot5"),
        (
            "define ql(Q1) qsgdisp(shared) cfstruct(APP9);",
            "AlreadyDefined",
        ),
        ("DEFINE QLOCAL(Q2) SHARE;;", "UnknownKeyword SHARE;"),
    ];
    assert_eq!(rt; first_wrong(alloc, &draft, &rows), None);
    let task = draft_behind(alloc, &["TASK QM1 1"])?;
    let rows = [
        ("RESET CFSTRUCT(A) SMDS(QM9)", "Missing ACCESS"),
        (
            "RESET CFSTRUCT(A) SMDS( QM9 ) ACCESS(ENABLED)",
            "UnknownName SMDS( QM9 )",
        ),
    ];
    assert_eq!(rt; first_wrong(alloc, &task, &rows), None);
    Ok(())
}

#[test]
fn other_faults(rt: HostRuntime) -> Result<(), Fail> {
    let draft = draft_behind(rt.alloc(), &[])?;
    let rows = [
        ("DEFINE", "UnknownObject"),
        ("DEFINE QLOCAL(Q2) PUT(X) PUT", "BadValue PUT(X)"),
        ("DEF QL(Q2) GET(ENABLED) GET", "Twice GET"),
        (
            "DEF CFSTRUCT(A234567890123)",
            "NameTooLong CFSTRUCT(A234567890123)",
        ),
        ("DEF CFSTRUCT(A) DSGROUP(B)", "NoAsterisk"),
    ];
    assert_eq!(rt; first_wrong(rt.alloc(), &draft, &rows), None);
    Ok(())
}

#[test]
fn more_faults(rt: HostRuntime) -> Result<(), Fail> {
    let draft = draft_behind(rt.alloc(), &[])?;
    let rows = [
        ("DEF CFSTRUCT(A) DSGROUP('*.*')", "TwoAsterisks"),
        ("DEF QL(Q2) QSGDISP(SHARED) CFSTRUCT(B)", "NoSuchStructure"),
        ("MEMBER Q(", "UnclosedParen 8"),
        ("MEMBER QM2 LOG( )", "EmptyValue 14"),
        (")", "BadByte 0"),
    ];
    assert_eq!(rt; first_wrong(rt.alloc(), &draft, &rows), None);
    Ok(())
}

/// 64 bodies of 4,194,304 bytes are all that fit.
#[test]
fn all_bodies(rt: HostRuntime) -> Result<(), Fail> {
    let alloc = rt.alloc();
    let mut draft = draft_behind(alloc, &["TASK QM1 1"])?;
    for _ in 0..64 {
        take_all(alloc, &mut draft, &["PUT Q1 SIZE(4194304)"])?;
    }
    assert!(rt; !has_why(alloc, &draft, "PUT Q1 BODY('')", "TooLarge 268435456"));
    assert!(rt; has_why(alloc, &draft, "PUT Q1 HEX(00)", "TooLarge 268435456"));
    assert!(rt; has_why(alloc, &draft, "PUT Q1 SIZE(4194305)", "TooLarge 4194304"));
    Ok(())
}

#[test]
fn faults_of_puts(rt: HostRuntime) -> Result<(), Fail> {
    let draft = draft_behind(rt.alloc(), &["TASK QM1 1"])?;
    let rows = [
        ("PUT Q1 PRI(1) PRI(77)", "BadNumber PRI(77)"),
        ("PUT Q1 SIZE(5) SIZE(99999999)", "Repeated SIZE(99999999)"),
        ("PUT Q1 SIZE(5) HEX(0)", "BadNumber HEX(0)"),
        ("PUT BODY(x) Q1", "UnknownWord BODY(x)"),
        ("PUT Q1 'PRI'(1)", "UnknownWord 'PRI'(1)"),
    ];
    assert_eq!(rt; first_wrong(rt.alloc(), &draft, &rows), None);
    Ok(())
}

#[test]
fn faults_of_actors(rt: HostRuntime) -> Result<(), Fail> {
    let draft = draft_behind(rt.alloc(), &["OPERATOR", "TASK QM1 1"])?;
    let rows = [
        ("WAIT 'OPERATOR' 1", "BadName 'OPERATOR'"),
        ("WAIT OPERATOR(1) 2", "UnknownWord OPERATOR(1)"),
        ("WAIT QM1 5 X", "BadNumber 5"),
        ("OPERATOR 1", "Repeated OPERATOR"),
        ("TASK QM1 1", "Repeated 1"),
    ];
    assert_eq!(rt; first_wrong(rt.alloc(), &draft, &rows), None);
    Ok(())
}

#[test]
fn schedules(rt: HostRuntime) -> Result<(), Fail> {
    let alloc = rt.alloc();
    let draft = draft_behind(alloc, &["SCHEDULE", "QM1 0 10000000", "'QM1' 4 1"])?;
    let rows = [
        ("END X", "TooLarge 10000000"),
        ("SCHEDULE", "UnknownWord SCHEDULE"),
        ("OPERATOR", "Missing COUNT"),
        ("QM1 5 X", "BadNumber 5"),
    ];
    assert_eq!(rt; first_wrong(alloc, &draft, &rows), None);
    let ended = draft_behind(alloc, &["END"])?;
    assert!(rt; has_why(alloc, &ended, "END", "UnknownWord END"));
    Ok(())
}

/// The directive that a text is, behind a task.
fn directive(alloc: Global, text: &str) -> Option<Directive> {
    let Ok(draft) = draft_behind(alloc, &["TASK QM1 1"]) else {
        return None;
    };
    if text.len() > SCRIPT_BYTES {
        return None;
    }
    match read_statement(alloc, &draft, text) {
        Ok(Statement::Directive(directive)) => Some(directive),
        _ => None,
    }
}

/// Whether a text is a PUT of no bytes with the queue's defaults on this queue.
fn is_plain_put(alloc: Global, text: &str, wanted: &str) -> bool {
    match &directive(alloc, text) {
        Some(
            Directive::Put {
                queue,
                body: BodyWord::Given(body),
                priority: None,
                persistent: None,
                msg_id,
                ..
            },
        ) => queue.is(wanted) && body.len() == 0 && *msg_id == [0; 24],
        _ => false,
    }
}

#[test]
fn directives(rt: HostRuntime) {
    let alloc = rt.alloc();
    assert!(rt; is_plain_put(alloc, "put size", "SIZE"));
    assert!(rt; is_plain_put(alloc, "PUT 'q' PRI(-1) PERS(2) HEX('')", "q"));
    assert!(rt;
        matches!(
            directive(alloc, "WAIT QM1 0 4294967295"),
            Some(Directive::Wait(Actor::Task(Member::One, TaskNo::System), 4_294_967_295))
        )
    );
    assert!(rt;
        matches!(
            directive(alloc, "PUT Q1 PERS(0) SIZE(7)"),
            Some(Directive::Put {
                body: BodyWord::Size(7),
                persistent: Some(false),
                ..
            })
        )
    );
}
