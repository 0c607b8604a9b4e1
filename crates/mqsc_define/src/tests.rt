use super::*;
use crate::faults::DefineFault::{
    BadValue, LevelNot5, Missing, NameTooLong, NoAsterisk, Twice, TwoAsterisks, UnknownKeyword,
    UnknownObject, UnknownVerb,
};
use mqsc_lex::lex;
use qsg_num::{Bytes, Delivery, Priority, Rules};
use qsg_objects::{CfstructDef, Definition, QlocalDef};
use std::alloc::Global;
use std::test::Fail;

/// What the words of a text define; an `Err` is what stands in its way.
fn defined(alloc: Global, text: &str) -> Result<Definition, Option<DefineFault>> {
    if text.len() > 4_096 {
        return Err(None);
    }
    let Ok(words) = lex(alloc, text) else {
        return Err(None);
    };
    match define(alloc, &words) {
        Ok(definition) => Ok(definition),
        Err(DefineError::Fault(fault)) => Err(Some(fault)),
        Err(DefineError::NoMemory) => Err(None),
    }
}

/// The fault of the words of a text.
fn fault_of(alloc: Global, text: &str) -> Option<DefineFault> {
    match defined(alloc, text) {
        Err(fault) => fault,
        Ok(_) => None,
    }
}

/// Whether a queue is defined where this stands behind its required keywords.
fn on_queue(alloc: Global, word: &str) -> Result<bool, Fail> {
    let text = format!(in alloc; "DEFINE QLOCAL(Q1) QSGDISP(SHARED) CFSTRUCT(APP1) {word}")?;
    Ok(defined(alloc, text.as_str()).is_ok())
}

/// Whether a structure is defined where this stands behind its required keywords.
fn on_structure(alloc: Global, word: &str) -> Result<bool, Fail> {
    let text = format!(in alloc;
        "DEFINE CFSTRUCT(APP1) CFLEVEL(5) OFFLOAD(SMDS) DSGROUP('A.*') {word}"
    )?;
    Ok(defined(alloc, text.as_str()).is_ok())
}

#[test]
fn first_faults(rt: HostRuntime) {
    let alloc = rt.alloc();
    for (text, fault) in [
        ("", UnknownVerb),
        ("ALTER QLOCAL(Q1)", UnknownVerb),
        ("'DEFINE' QLOCAL(Q1)", UnknownVerb),
        ("'define'", UnknownVerb),
        ("DEFINE(X) QLOCAL(Q1)", UnknownVerb),
        ("def", UnknownObject),
        ("DEFINE CHANNEL(C1)", UnknownObject),
        ("DEFINE 'QLOCAL'(Q1)", UnknownObject),
        ("DEF ql", BadValue(1)),
        ("DEF QL('Q 1')", BadValue(1)),
        ("DEF CFSTRUCT(1APP)", BadValue(1)),
        ("DEF CFSTRUCT(A_B)", BadValue(1)),
        ("DEF CFSTRUCT(A234567890123)", NameTooLong(1)),
        // NameTooLong stands before BadValue,
        ("DEF CFSTRUCT(1-34567890123)", NameTooLong(1)),
        (
            "DEF QL(-234567890123456789012345678901234567890123456789)",
            NameTooLong(1),
        ),
        // and lengths count characters.
        ("DEF CFSTRUCT(äöüäöüäöüäöü)", BadValue(1)),
        ("DEF CFSTRUCT(äöüäöüäöüäöüä)", NameTooLong(1)),
        ("DEF QL(Q1) RECAUTO(YES)", UnknownKeyword(2)),
        ("DEF QL(Q1) QL(Q1)", UnknownKeyword(2)),
        ("DEF QL(Q1) DSGROUP('A.*')", UnknownKeyword(2)),
        ("DEF CFSTRUCT(APP1) CFSTRUCT(APP1)", UnknownKeyword(2)),
        ("DEF QL(Q1) SHARE 'PUT'(ENABLED)", UnknownKeyword(3)),
        // a word that isn't a keyword is none, however often it stands
        ("DEF QL(Q1) 'PUT'(ENABLED) PUT(DISABLED)", UnknownKeyword(2)),
        (
            "DEF QL(Q1) PUT(ENABLED) GET(ENABLED) PUT(ENABLED)",
            Twice(4),
        ),
        // Twice stands before BadValue, and the first word at fault before those behind it.
        ("DEF QL(Q1) SHARE SHARE(YES)", Twice(3)),
        ("DEF QL(Q1) PUT(X) PUT(ENABLED)", BadValue(2)),
        ("DEF QL(Q1) CFSTRUCT(A234567890123) FOO", NameTooLong(2)),
        ("DEF QL(Q1) FOO CFSTRUCT(A234567890123)", UnknownKeyword(2)),
        ("DEF QL('') FOO", BadValue(1)),
        ("DEF QL(Q1) CFSTRUCT", BadValue(2)),
        ("DEF QL(Q1) CFSTRUCT('A-B')", BadValue(2)),
        ("DEF QL(Q1) NOREPLACE(NO)", BadValue(2)),
        ("DEF QL(Q1) PUT('enabled')", BadValue(2)),
        ("DEF CFSTRUCT(APP1) RECOVER", BadValue(2)),
        ("DEF CFSTRUCT(APP1) OFFLOAD(DB2)", BadValue(2)),
        ("DEF QL(Q1) QSGDISP(QMGR)", BadValue(2)),
        ("DEF CFSTRUCT(APP1) CFLEVEL(0)", BadValue(2)),
        ("DEF CFSTRUCT(APP1) CFLEVEL(1)", LevelNot5),
        ("DEF CFSTRUCT(APP1) CFLEVEL(4)", LevelNot5),
        ("DEF CFSTRUCT(APP1) CFLEVEL(6)", BadValue(2)),
        ("DEF CFSTRUCT(APP1) CFLEVEL(04)", BadValue(2)),
        ("DEF CFSTRUCT(APP1) DSGROUP('A.B')", NoAsterisk),
        ("DEF CFSTRUCT(APP1) DSGROUP('A.*.*')", TwoAsterisks),
        ("DEF CFSTRUCT(APP1) DSGROUP('***')", TwoAsterisks),
        ("DEF CFSTRUCT(APP1) DSGROUP('')", BadValue(2)),
        (
            "DEF CFSTRUCT(APP1) DSGROUP('AAAAAAAAAABBBBBBBBBBCCCCCCCCCCDDDDDDDDDDEEEEE')",
            BadValue(2),
        ),
        ("DEF CFSTRUCT(APP1) CFLEVEL(4) DSGROUP('A')", LevelNot5),
        // Words stand before what is missing, in the order of the tables.
        ("DEF CFSTRUCT(APP1)", Missing(Required::Cflevel)),
        ("DEF CFSTRUCT(APP1) DSGROUP('*') FOO", UnknownKeyword(3)),
        (
            "DEF CFSTRUCT(APP1) DSGROUP('*') CFLEVEL(5)",
            Missing(Required::Offload),
        ),
        (
            "DEF CFSTRUCT(APP1) OFFLOAD(SMDS) CFLEVEL('5')",
            Missing(Required::Dsgroup),
        ),
        ("DEF QL(Q1) CFSTRUCT(APP1)", Missing(Required::Qsgdisp)),
        ("DEF QL(Q1) QSGDISP(SHARED)", Missing(Required::Cfstruct)),
    ] {
        assert_eq!(rt; fault_of(alloc, text), Some(fault), "{text}");
    }
}

#[test]
fn ends_of_ranges(rt: HostRuntime) -> Result<(), Fail> {
    let alloc = rt.alloc();
    for (word, good) in [
        ("OFFLD1TH(0)", true),
        ("OFFLD2TH(100)", true),
        ("OFFLD3TH(101)", false),
        ("OFFLD1TH(-1)", false),
        ("OFFLD1SZ(0K)", true),
        ("OFFLD2SZ('64K')", true),
        ("OFFLD3SZ(65K)", false),
        ("OFFLD1SZ(64)", false),
        ("OFFLD1SZ(K)", false),
        ("OFFLD1SZ(04K)", false),
        ("OFFLD1SZ('4k')", false),
        ("DSBLOCK(8k)", true),
        ("DSBLOCK(16K)", true),
        ("DSBLOCK(32K)", true),
        ("DSBLOCK(64K)", true),
        ("DSBLOCK(128K)", true),
        ("DSBLOCK(256K)", true),
        ("DSBLOCK(512K)", true),
        ("DSBLOCK(1M)", true),
        ("DSBLOCK(4K)", false),
        ("DSBLOCK(1024K)", false),
        ("DSBLOCK(2M)", false),
        ("DSBUFS(0)", false),
        ("DSBUFS(1)", true),
        ("DSBUFS(9999)", true),
        ("DSBUFS(10000)", false),
        ("DSEXPAND(MAYBE)", false),
        ("RECOVER('yes')", false),
        ("DESCR('')", true),
        (
            "DESCR('1234567890123456789012345678901234567890123456789012345678901234')",
            true,
        ),
        (
            "DESCR('1234567890123456789012345678901234567890123456789012345678901é34')",
            true,
        ),
        (
            "DESCR('12345678901234567890123456789012345678901234567890123456789012345')",
            false,
        ),
    ] {
        assert_eq!(rt; on_structure(alloc, word)?, good, "{word}");
    }
    for (word, good) in [
        ("DEFPRTY(0)", true),
        ("DEFPRTY(9)", true),
        ("DEFPRTY(10)", false),
        ("DEFPRTY(00)", false),
        ("MAXDEPTH(0)", true),
        ("MAXDEPTH(999999999)", true),
        ("MAXDEPTH(1000000000)", false),
        ("MAXMSGL(104857600)", true),
        ("MAXMSGL(104857601)", false),
        ("MAXMSGL(99999999999999999999999)", false),
        ("MSGDLVSQ(LIFO)", false),
        ("DEFPSIST(DEF)", false),
        ("DEFSOPT(EXCL)", false),
        ("GET", false),
        ("NOREPLACE SHARE DEFSOPT(SHARED)", true),
    ] {
        assert_eq!(rt; on_queue(alloc, word)?, good, "{word}");
    }
    Ok(())
}

fn is_text(text: &Option<Bytes>, wanted: &[u8]) -> bool {
    match text {
        Some(text) => text.as_slice() == wanted,
        None => false,
    }
}

/// Whether it has these names and, but for DESCR, the defaults.
fn is_plain_structure(d: &CfstructDef, name: &str, dsgroup: &[u8]) -> bool {
    let rules = Rules {
        threshold: [70, 80, 90],
        size_k: [32, 4, 0],
    };
    d.name.is(name)
        && d.dsgroup.as_slice() == dsgroup
        && d.recover
        && d.rules == rules
        && d.dsblock == 262_144
        && d.dsbufs.is_none()
        && d.dsexpand.is_none()
}

fn is_full_structure(d: &CfstructDef) -> bool {
    let rules = Rules {
        threshold: [1, 2, 3],
        size_k: [64, 5, 6],
    };
    d.name.is("a")
        && d.dsgroup.as_slice() == b"*".as_slice()
        && !d.recover
        && d.rules == rules
        && d.dsblock == 1_048_576
        && d.dsbufs == Some(17)
        && d.dsexpand == Some(false)
        && is_text(&d.descr, b"It's")
}

/// Whether it has these names and, but for DESCR, the defaults.
fn is_plain_queue(d: &QlocalDef, name: &str, cfstruct: &str) -> bool {
    d.name.is(name)
        && d.cfstruct.is(cfstruct)
        && d.put
        && d.get
        && d.defprty == Priority::Zero
        && !d.defpsist
        && d.msgdlvsq == Delivery::Priority
        && d.maxdepth == 999_999_999
        && d.maxmsgl == 4_194_304
}

fn is_full_queue(d: &QlocalDef) -> bool {
    d.name.is("A.B/C_D%9")
        && d.cfstruct.is("ABCDEFGHIJK2")
        && !d.put
        && !d.get
        && d.defprty == Priority::Seven
        && d.defpsist
        && d.msgdlvsq == Delivery::Fifo
        && d.maxdepth == 12
        && d.maxmsgl == 0
        && is_text(&d.descr, b"")
}

fn structure(alloc: Global, text: &str) -> Option<CfstructDef> {
    match defined(alloc, text) {
        Ok(Definition::Cfstruct(d)) => Some(d),
        _ => None,
    }
}

fn queue(alloc: Global, text: &str) -> Option<QlocalDef> {
    match defined(alloc, text) {
        Ok(Definition::Qlocal(d)) => Some(d),
        _ => None,
    }
}

#[test]
fn defaults(rt: HostRuntime) {
    let alloc = rt.alloc();
    let text = "DEFINE CFSTRUCT(APP1) CFLEVEL(5) OFFLOAD(SMDS) DSGROUP('QSG1.*.APP1')";
    match structure(alloc, text) {
        Some(d) => {
            assert!(rt; is_plain_structure(&d, "APP1", b"QSG1.*.APP1"));
            assert!(rt; d.descr.is_none());
        }
        None => assert!(rt; false),
    }
    match queue(alloc, "DEFINE QLOCAL(Q1) QSGDISP(SHARED) CFSTRUCT(APP1)") {
        Some(d) => {
            assert!(rt; is_plain_queue(&d, "Q1", "APP1"));
            assert!(rt; d.descr.is_none());
        }
        None => assert!(rt; false),
    }
}

#[test]
fn keywords_in_any_order(rt: HostRuntime) {
    let alloc = rt.alloc();
    for text in [
        "def cfstruct('a') cflevel(5) offload(smds) dsgroup(*) recover(no) offld1th(1) offld2th(2) \
         offld3th(3) offld1sz(64k) offld2sz(5k) offld3sz(6k) dsblock(1m) dsbufs(17) dsexpand(no) descr('It''s')",
        "DEFINE CFSTRUCT('a') DESCR('It''s') DSEXPAND(NO) OFFLD3SZ('6K') DSBUFS(17) OFFLD2SZ(5K) DSBLOCK(1M) \
         OFFLD3TH(3) OFFLD1SZ(64K) OFFLD2TH(2) RECOVER(NO) OFFLD1TH(1) DSGROUP( '*' ) OFFLOAD(SMDS) CFLEVEL(5)",
    ] {
        match structure(alloc, text) {
            Some(d) => assert!(rt; is_full_structure(&d)),
            None => assert!(rt; false, "{text}"),
        }
    }
    for text in [
        "def ql(a.b/c_d%9) qsgdisp(shared) cfstruct(abcdefghijk2) put(disabled) get(disabled) defprty(7) \
         defpsist(yes) msgdlvsq(fifo) maxdepth(12) maxmsgl(0) share noreplace defsopt(shared) descr('')",
        "DEFINE QLOCAL('A.B/C_D%9') DESCR('') DEFSOPT(SHARED) NOREPLACE MAXMSGL(0) SHARE MSGDLVSQ(FIFO) \
         MAXDEPTH('12') DEFPSIST(YES) DEFPRTY(7) GET(DISABLED) PUT(DISABLED) CFSTRUCT(ABCDEFGHIJK2) QSGDISP(SHARED)",
    ] {
        match queue(alloc, text) {
            Some(d) => assert!(rt; is_full_queue(&d)),
            None => assert!(rt; false, "{text}"),
        }
    }
}

#[test]
fn printed_faults(rt: HostRuntime) -> Result<(), Fail> {
    let alloc = rt.alloc();
    for (required, text) in [
        (Required::Cflevel, "Missing CFLEVEL"),
        (Required::Offload, "Missing OFFLOAD"),
        (Required::Dsgroup, "Missing DSGROUP"),
        (Required::Qsgdisp, "Missing QSGDISP"),
        (Required::Cfstruct, "Missing CFSTRUCT"),
        (Required::Smds, "Missing SMDS"),
        (Required::Access, "Missing ACCESS"),
    ] {
        let fault = Missing(required);
        assert_eq!(rt; format!(in alloc; "{fault}")?.as_str(), text);
    }
    Ok(())
}
