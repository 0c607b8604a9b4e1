ghost use Rattle.std.specs.Prelude.{◌<◌, ◌^◌, length};

use super::*;
use mqsc_define::{DefineError, DefineFault, Required};
use mqsc_lex::lex;
use std::alloc::{AllocError, Global};

/// A command as a text.
fn print(alloc: Global, command: &Admin) -> Result<String, AllocError> {
    match command {
        Admin::Backup(structure) => format!(in alloc; "backup {}", structure.as_str()),
        Admin::Recover(structure, kind) => {
            format!(in alloc; "recover {} {kind:?}", structure.as_str())
        }
        Admin::ResetSmds(member, structure, wanted) => {
            format!(in alloc;
                "reset {} {} {wanted:?}",
                member.as_str(),
                structure.as_str()
            )
        }
        Admin::DisplayCfstatus(structure) => format!(in alloc; "status {}", structure.as_str()),
        Admin::DisplayQueue(queue) => format!(in alloc; "queue {}", queue.as_str()),
        Admin::DisplaySmds(structure) => format!(in alloc; "data sets {}", structure.as_str()),
    }
}

/// Whether the words of a text are this command.
fn is_command(alloc: Global, text: &str, wanted: &str) -> bool
    requires { length text.now < 2 ^ 16 }
{
    let Ok(words) = lex(alloc, text) else {
        return false;
    };
    let Ok(command) = parse_admin(alloc, &words) else {
        return false;
    };
    match print(alloc, &command) {
        Ok(printed) => printed.as_str() == wanted,
        Err(_) => false,
    }
}

/// The fault of the words of a text.
fn fault_of(alloc: Global, text: &str) -> Option<DefineFault>
    requires { length text.now < 2 ^ 16 }
{
    match lex(alloc, text) {
        Ok(words) => match parse_admin(alloc, &words) {
            Err(DefineError::Fault(fault)) => Some(fault),
            _ => None,
        },
        Err(_) => None,
    }
}

#[test]
fn faults_of_verbs_and_objects(rt: HostRuntime) {
    let alloc = rt.alloc();
    for text in [
        "",
        "DEFINE CFSTRUCT(APP1)",
        "BACKUP(APP1)",
        "'BACKUP' CFSTRUCT(APP1)",
        "'DISPLAY'",
        "BACKUPS X Y",
    ] {
        assert_eq!(rt; fault_of(alloc, text), Some(DefineFault::UnknownVerb));
    }
    for text in [
        "DISPLAY",
        "DISPLAY CFSTRUCT(APP1)",
        "DISPLAY 'QUEUE'(Q1)",
        "DISPLAY X SMDS(*)",
    ] {
        assert_eq!(rt; fault_of(alloc, text), Some(DefineFault::UnknownObject));
    }
}

#[test]
fn faults_of_words(rt: HostRuntime) {
    let alloc = rt.alloc();
    for (text, fault) in [
        ("BACKUP QUEUE(A)", DefineFault::UnknownKeyword(1)),
        ("RECOVER EXCLINT(1)", DefineFault::UnknownKeyword(1)),
        ("BACKUP 'CFSTRUCT'(APP1)", DefineFault::UnknownKeyword(1)),
        (
            "DISPLAY QUEUE(Q1) CFSTRUCT(APP1)",
            DefineFault::UnknownKeyword(2),
        ),
        ("BACKUP CFSTRUCT(A) CFSTRUCT(A)", DefineFault::Twice(2)),
        (
            "RESET ACCESS(ENABLED) SMDS(QM1) STATUS(FAILED)",
            DefineFault::Twice(3),
        ),
        ("RESET STATUS(FAILED) STATUS(FAILED)", DefineFault::Twice(2)),
        (
            "BACKUP CFSTRUCT(ABCDEFGHIJKLM)",
            DefineFault::NameTooLong(1),
        ),
        ("RESET SMDS(QM123)", DefineFault::NameTooLong(1)),
        ("RESET SMDS(*)", DefineFault::BadValue(1)),
        ("DISPLAY SMDS(QM1)", DefineFault::BadValue(1)),
        ("DISPLAY CFSTATUS", DefineFault::BadValue(1)),
        ("DISPLAY QUEUE('A B')", DefineFault::BadValue(1)),
        ("BACKUP CFSTRUCT(1A)", DefineFault::BadValue(1)),
        ("BACKUP CFSTRUCT(A.B)", DefineFault::BadValue(1)),
        ("BACKUP EXCLINT(4294967296)", DefineFault::BadValue(1)),
        ("BACKUP EXCLINT(05)", DefineFault::BadValue(1)),
        ("RECOVER TYPE('purge')", DefineFault::BadValue(1)),
        ("RESET ACCESS(FAILED)", DefineFault::BadValue(1)),
        ("RESET STATUS(ENABLED)", DefineFault::BadValue(1)),
    ] {
        assert_eq!(rt; fault_of(alloc, text), Some(fault), "{text}");
    }
}

#[test]
fn faults_that_stand_together(rt: HostRuntime) {
    let alloc = rt.alloc();
    for (text, fault) in [
        // the further left one
        ("RESET SMDS(QM1) ACCESS(OPEN) X", DefineFault::BadValue(2)),
        ("DISPLAY SMDS(QM1) X", DefineFault::BadValue(1)),
        // in one word
        ("BACKUP EXCLINT(1) EXCLINT(-)", DefineFault::Twice(2)),
        (
            "BACKUP CFSTRUCT('1234567890123')",
            DefineFault::NameTooLong(1),
        ),
        // a word before an absent one
        ("RESET SMDS(QM1) X", DefineFault::UnknownKeyword(2)),
        // absent ones in order
        ("BACKUP", DefineFault::Missing(Required::Cfstruct)),
        (
            "RECOVER TYPE(PURGE)",
            DefineFault::Missing(Required::Cfstruct),
        ),
        ("RESET", DefineFault::Missing(Required::Smds)),
        ("RESET SMDS(QM1)", DefineFault::Missing(Required::Cfstruct)),
        (
            "RESET CFSTRUCT(APP1) SMDS(QM1)",
            DefineFault::Missing(Required::Access),
        ),
        ("DISPLAY SMDS(*)", DefineFault::Missing(Required::Cfstruct)),
    ] {
        assert_eq!(rt; fault_of(alloc, text), Some(fault), "{text}");
    }
}

#[test]
fn commands(rt: HostRuntime) {
    for (text, wanted) in [
        ("BACKUP CFSTRUCT(APP1)", "backup APP1"),
        ("backup exclint(4294967295) cfstruct(app1)", "backup APP1"),
        ("RECOVER CFSTRUCT(APP1)", "recover APP1 Normal"),
        (
            "RECOVER TYPE(NORMAL) CFSTRUCT('app1')",
            "recover app1 Normal",
        ),
        ("RECOVER CFSTRUCT(APP1) TYPE(PURGE)", "recover APP1 Purge"),
        (
            "RESET SMDS(QM1) CFSTRUCT(APP1) ACCESS(ENABLED)",
            "reset QM1 APP1 AccessEnabled",
        ),
        (
            "RESET ACCESS(DISABLED) CFSTRUCT(APP1) SMDS(QM1)",
            "reset QM1 APP1 AccessDisabled",
        ),
        (
            "RESET SMDS(QM1) STATUS(FAILED) CFSTRUCT(APP1)",
            "reset QM1 APP1 StatusFailed",
        ),
        (
            "RESET SMDS(QM1) CFSTRUCT(APP1) STATUS('RECOVERED')",
            "reset QM1 APP1 StatusRecovered",
        ),
        ("DISPLAY CFSTATUS(ABCDEFGHIJKL)", "status ABCDEFGHIJKL"),
        ("DISPLAY QUEUE(PAY.IN/1_%)", "queue PAY.IN/1_%"),
        ("DISPLAY SMDS(*) CFSTRUCT(APP1)", "data sets APP1"),
        ("DISPLAY SMDS('*') CFSTRUCT(APP1)", "data sets APP1"),
    ] {
        assert!(rt; is_command(rt.alloc(), text, wanted), "{text}");
    }
}
