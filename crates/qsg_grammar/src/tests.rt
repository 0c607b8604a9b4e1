//! Kinds of statement, their first faults, and how a fault is printed.

ghost use Rattle.std.specs.Prelude.{◌<◌, ◌^◌, length};

use crate::{Fault, Kind, Lack, Why, kind_of, row_fault, start_fault, why_of};
use mqsc_lex::lex;
use qsg_draft::Draft;
use qsg_num::{Actor, Name};
use qsg_objects::MemberDef;
use std::alloc::{AllocError, Global};
use std::test::Fail;

/// A draft with a group and the member QM1.
fn draft_of(alloc: Global) -> Result<Draft, AllocError> {
    let mut draft = Draft::new(alloc);
    draft.start(Name::from_str(alloc, "QSG1")?);
    if draft.member_count() == 0 {
        draft.add_member(MemberDef {
            name: Name::from_str(alloc, "QM1")?,
            log_pages: 8_192,
            pick: 0,
        })?;
    }
    Ok(draft)
}

/// The fault of a statement of the table, or of a first word without a place.
fn fault_of(alloc: Global, draft: &Draft, text: &str) -> Option<Fault>
    requires { length text.now < 2 ^ 16 }
{
    let Ok(words) = lex(alloc, text) else {
        return None;
    };
    match kind_of(draft, words.as_slice()) {
        Some(Kind::Listed(row)) => row_fault(draft, row, words.as_slice()),
        Some(_) => None,
        None => Some(start_fault(draft.stage())),
    }
}

#[test]
fn faults_among_definitions(rt: HostRuntime) -> Result<(), Fail> {
    let alloc = rt.alloc();
    let draft = draft_of(alloc)?;
    assert_eq!(rt;
        fault_of(alloc, &draft, "MEMBER QM2 PICK(1) LOG(8192)"),
        None
    );
    assert_eq!(rt;
        fault_of(alloc, &draft, "MEMBER QM2 LOG(8193) PICK"),
        Some(Fault::BadNumber(2))
    );
    assert_eq!(rt;
        fault_of(alloc, &draft, "MEMBER LOG LOG(1) 'LOG'(1)"),
        Some(Fault::UnknownWord(3))
    );
    assert_eq!(rt;
        fault_of(alloc, &draft, "TASK QM1"),
        Some(Fault::Missing(Lack::N))
    );
    assert_eq!(rt;
        fault_of(alloc, &draft, "PUT Q1"),
        Some(Fault::UnknownWord(0))
    );
    Ok(())
}

#[test]
fn faults_of_waits(rt: HostRuntime) -> Result<(), Fail> {
    let alloc = rt.alloc();
    let mut draft = draft_of(alloc)?;
    draft.open_section(Actor::Operator)?;
    assert_eq!(rt; fault_of(alloc, &draft, "WAIT operator 4294967295"), None);
    assert_eq!(rt;
        fault_of(alloc, &draft, "WAIT OPERATOR 4294967296"),
        Some(Fault::BadNumber(2))
    );
    assert_eq!(rt;
        fault_of(alloc, &draft, "WAIT 'OPERATOR' 1"),
        Some(Fault::BadName(1))
    );
    assert_eq!(rt;
        fault_of(alloc, &draft, "CRASH QM2(1)"),
        Some(Fault::UnknownName(1))
    );
    assert_eq!(rt;
        fault_of(alloc, &draft, "OPERATOR X"),
        Some(Fault::Repeated(0))
    );
    Ok(())
}

#[test]
fn printed_faults(rt: HostRuntime) -> Result<(), Fail> {
    let alloc = rt.alloc();
    let text = "PUT Q1  'It''s'";
    let Ok(words) = lex(alloc, text) else {
        assert!(rt; false);
        return Ok(());
    };
    let why = why_of(alloc, text, words.as_slice(), Fault::UnknownWord(2))?;
    let told = why.text(alloc)?;
    assert!(rt; told.as_slice() == b"UnknownWord 'It''s'".as_slice());
    assert!(rt; Why::TooLarge(4_194_304).text(alloc)?.as_slice() == b"TooLarge 4194304".as_slice());
    Ok(())
}
