//! Small scripts: what is read, and first faults as they are printed.

use crate::{ScriptError, ScriptFault, read};
use std::alloc::{AllocError, Global};
use std::str;
use std::string::String;
use std::test::Fail;

/// A fault as it is printed, behind its line.
fn printed(alloc: Global, fault: &ScriptFault) -> Result<String, AllocError> {
    let line = fault.line;
    let why = fault.why.text(alloc)?;
    match str::from_utf8(why.as_slice()) {
        Ok(why) => format!(in alloc; "{line} {why}"),
        Err(_) => format!(in alloc; "{line}"),
    }
}

/// The fault of a script; for a plan, how many works it has, and how many lines of a schedule.
fn told(alloc: Global, script: &[u8]) -> Result<String, AllocError> {
    match read(alloc, script) {
        Ok(plan) => {
            let works = plan.works.len();
            let turns = plan.schedule.len();
            format!(in alloc; "plan of {works} works, {turns} turns")
        }
        Err(ScriptError::Fault(fault)) => printed(alloc, &fault),
        Err(ScriptError::NoMemory) => Err(AllocError),
    }
}

/// The place of the first of these scripts of which something else is told; None where there is none.
fn first_wrong(alloc: Global, rows: &[(&[u8], &str)]) -> Result<Option<usize>, AllocError> {
    for (at, (script, expected)) in rows.iter().enumerate() {
        let found = told(alloc, script)?;
        if found.as_str() != *expected {
            return Ok(Some(at));
        }
    }
    Ok(None)
}

#[test]
fn plans(rt: HostRuntime) -> Result<(), Fail> {
    let alloc = rt.alloc();
    let rows: [(&[u8], &str); 4] = [
        (b"GROUP QSG1\nEND\n", "plan of 1 works, 0 turns"),
        (
            b"GROUP QSG1\nMEMBER QM1\nDEFINE CFSTRUCT(APP1) CFLEVEL(5) OFFLOAD(SMDS) DSGROUP('QSG1.*.APP1')\nDEFINE QLOCAL(Q1) QSGDISP(SHARED) CFSTRUCT(APP1)\nTASK QM1 1\nPUT Q1 BODY('hello')\nCOMMIT\nEND\n",
            "plan of 2 works, 0 turns",
        ),
        (
            b"* one member\nGROUP QSG1\nMEMBER QM1\nTASK QM1 1\nPUT Q1 BODY('x')\nEND",
            "plan of 2 works, 0 turns",
        ),
        (
            b"GROUP QSG1\r\nMEMBER +\r\n QM1\r\nSCHEDULE\r\nQM1 0 7\r\nOPERATOR 1\r\nEND\r\n",
            "plan of 1 works, 2 turns",
        ),
    ];
    assert_eq!(rt; first_wrong(alloc, &rows)?, None);
    Ok(())
}

/// Of two faults the one further up decides; a statement stands before the comments within it.
#[test]
fn first_of_two_faults(rt: HostRuntime) -> Result<(), Fail> {
    let alloc = rt.alloc();
    let rows: [(&[u8], &str); 3] = [
        (b"GROUP QSG1\nEN +\n*\xff\nMEMBER\n", "2 UnknownWord EN"),
        (b"GROUP QSG1\n*\xff\nEN\nEND\n", "2 NotUtf8"),
        (b"GROUP QSG1\nEND\nEN\n", "3 UnknownWord EN"),
    ];
    assert_eq!(rt; first_wrong(alloc, &rows)?, None);
    Ok(())
}

#[test]
fn where_an_end_or_a_group_is_missing(rt: HostRuntime) -> Result<(), Fail> {
    let alloc = rt.alloc();
    let rows: [(&[u8], &str); 4] = [
        (b"", "1 NoEnd"),
        (b"GROUP QSG1\n", "2 NoEnd"),
        (b"GROUP QSG1\nMEMBER QM1\n\n* no more", "5 NoEnd"),
        (b"MEMBER QM1\nGROUP QSG1\nEND\n", "1 NoGroup"),
    ];
    assert_eq!(rt; first_wrong(alloc, &rows)?, None);
    Ok(())
}

#[test]
fn definitions_at_fault(rt: HostRuntime) -> Result<(), Fail> {
    let alloc = rt.alloc();
    let rows: [(&[u8], &str); 3] = [
        (
            b"GROUP QSG1\nDEFINE CFSTRUCT(APP1) CFLEVEL(4) OFFLOAD(SMDS) DSGROUP('A.*')\nEND\n",
            "2 LevelNot5",
        ),
        (
            b"GROUP QSG1\nDEFINE CFSTRUCT(APP1) CFLEVEL(5) OFFLOAD(SMDS) DSGROUP('A.*.*')\nEND\n",
            "2 TwoAsterisks",
        ),
        (
            b"GROUP QSG1\nDEF CFSTRUCT(A) CFLEVEL(5) OFFLOAD(SMDS) DSGROUP('*')\nDEF CFSTRUCT(A) CFLEVEL(5) OFFLOAD(SMDS) DSGROUP('*')\nEND\n",
            "3 AlreadyDefined",
        ),
    ];
    assert_eq!(rt; first_wrong(alloc, &rows)?, None);
    Ok(())
}

#[test]
fn a_fifth_structure(rt: HostRuntime) -> Result<(), Fail> {
    let alloc = rt.alloc();
    let mut script = String::from_str(alloc, "GROUP QSG1\n")?;
    for name in ["A", "B", "C", "D", "E"] {
        script.push_str("DEF CFSTRUCT(")?;
        script.push_str(name)?;
        script.push_str(") CFLEVEL(5) OFFLOAD(SMDS) DSGROUP('*')\n")?;
    }
    let found = told(alloc, script.as_str().as_bytes())?;
    assert_eq!(rt; found.as_str(), "6 TooMany");
    Ok(())
}

/// A comment of one byte more than a line may have; a schedule of one step more; and the longest source and a byte.
#[test]
fn more_than_there_may_be(rt: HostRuntime) -> Result<(), Fail> {
    let alloc = rt.alloc();
    let mut script = Vec::from_slice(alloc, b"GROUP QSG1\n*")?;
    let found = told(alloc, b"GROUP QSG1\nSCHEDULE\nOPERATOR 10000001\nEND\n")?;
    assert_eq!(rt; found.as_str(), "4 TooLarge 10000000");
    script.resize(11 + 4_097, b'x')?;
    let found = told(alloc, script.as_slice())?;
    assert_eq!(rt; found.as_str(), "2 LongLine");
    script.resize(4_194_305, b'x')?;
    let found = told(alloc, script.as_slice())?;
    assert_eq!(rt; found.as_str(), "0 TooLarge 4194304");
    Ok(())
}

/// Four members with full logs, and four structures with data sets of 64 MiB.
fn large_devices(alloc: Global) -> Result<String, AllocError> {
    let mut script = String::from_str(alloc, "GROUP QSG1\n")?;
    for name in ["A", "B", "C", "D"] {
        script.push_str("MEMBER Q")?;
        script.push_str(name)?;
        script.push_str("\nDEF CFSTRUCT(")?;
        script.push_str(name)?;
        script.push_str(") CFLEVEL(5) OFFLOAD(SMDS) DSGROUP('*')\nFACILITY ")?;
        script.push_str(name)?;
        script.push_str(" BLOCKS(256)\n")?;
    }
    script.push_str("END\n")?;
    Ok(script)
}

#[test]
fn devices_that_are_too_large(rt: HostRuntime) -> Result<(), Fail> {
    let alloc = rt.alloc();
    let script = large_devices(alloc)?;
    let found = told(alloc, script.as_str().as_bytes())?;
    assert_eq!(rt; found.as_str(), "14 TooLarge 1073741824");
    Ok(())
}
