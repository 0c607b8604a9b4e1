//! Spellings and pages byte by byte, and the places of faults.

use crate::{
    LogRecord, PageFault, Part, RecordFault, Spellings, StructSet, cut, decode, decode_page, encode,
};
use qsg_num::{Bytes, Incarnation, Member, UnitName};
use std::test::*;

const UNIT: UnitName = UnitName {
    member: Member::One,
    incarnation: Incarnation { number: 1 },
    seq: 1,
};

/// The commit of QM1/1/1, without and with its structures.
const COMMIT: [u8; 10] = [3, 1, 0, 0, 0, 1, 0, 0, 0, 1];

const COMMIT_IN: [u8; 11] = [7, 1, 0, 0, 0, 1, 0, 0, 0, 1, 1];

/// What their pages begin with, of version 1 and of version 2.
const OLD_PAGE: [u8; 20] = [1, 0, 13, 0, 0, 0, 0, 1, 0, 10, 3, 1, 0, 0, 0, 1, 0, 0, 0, 1];

const PAGE: [u8; 21] = [
    2, 0, 14, 0, 0, 0, 0, 1, 0, 11, 7, 1, 0, 0, 0, 1, 0, 0, 0, 1, 1,
];

fn page(rt: HostRuntime, front: &[u8]) -> Result<Vec<u8>, Fail> {
    let mut body = Vec::from_slice(rt.alloc(), front)?;
    body.resize(4095, 0)?;
    Ok(body)
}

#[test]
fn commits_are_spelled_and_read(rt: HostRuntime) -> Result<(), Fail> {
    let commit = encode(rt.alloc(), &LogRecord::Commit(UNIT))?;
    assert_eq!(rt; commit.as_slice(), COMMIT.as_slice());
    let set = StructSet::new(1).ok_or("a set")?;
    let commit_in = encode(rt.alloc(), &LogRecord::CommitIn(UNIT, set))?;
    assert_eq!(rt; commit_in.as_slice(), COMMIT_IN.as_slice());
    assert!(rt; matches!(decode(rt.alloc(), &COMMIT), Ok(LogRecord::Commit(_))));
    assert!(rt; matches!(decode(rt.alloc(), &COMMIT_IN), Ok(LogRecord::CommitIn(..))));
    Ok(())
}

#[test]
fn faults_of_records_have_their_places(rt: HostRuntime) -> Result<(), Fail> {
    let faults: [(&[u8], usize); 7] = [
        (&[], 0),
        (&[8, 1], 0),
        (&[3, 9], 1),
        (&[3, 1, 0, 0], 4),
        (&[3, 1, 0, 0, 0, 1, 0, 0, 0, 1, 5], 10),
        (&[7, 1, 0, 0, 0, 1, 0, 0, 0, 1, 16], 10),
        (&[5, 1, 0, 0, 0, 1, 0, 0, 0, 1, 3], 10),
    ];
    for (bytes, place) in faults {
        let fault = decode(rt.alloc(), bytes).err();
        assert_eq!(rt; fault, Some(RecordFault::BadRecord { at: place }));
    }
    Ok(())
}

#[test]
fn pages_of_both_versions_are_read(rt: HostRuntime) -> Result<(), Fail> {
    let old = page(rt, &OLD_PAGE)?;
    let pieces = decode_page(rt.alloc(), &old).ok().ok_or("a page")?;
    assert_eq!(rt; pieces.as_slice().len(), 1);
    for piece in pieces.as_slice() {
        assert_eq!(rt; piece.part, Part::Only);
        assert_eq!(rt; piece.bytes.as_slice(), COMMIT.as_slice());
    }
    let mut records = Vec::new(rt.alloc());
    records.push(Bytes::from_slice(rt.alloc(), &COMMIT_IN)?)?;
    let pages = cut(rt.alloc(), &Spellings::from_vec(records))?;
    assert_eq!(rt; pages.len(), 1);
    let expected = page(rt, &PAGE)?;
    if pages.len() == 1 {
        assert_eq!(rt; pages.page(0).as_slice(), expected.as_slice());
    }
    Ok(())
}

#[test]
fn a_run_takes_as_few_pages_as_it_can(rt: HostRuntime) -> Result<(), Fail> {
    // The bytes of a first record, and the pages that it takes with a second one of 10 bytes.
    for (length, wanted) in [(1, 1), (4072, 1), (4073, 2), (8157, 2), (8158, 3)] {
        let mut first = Vec::new(rt.alloc());
        first.resize(length, 7)?;
        let mut records = Vec::new(rt.alloc());
        records.push(Bytes::from_vec(first))?;
        records.push(Bytes::from_slice(rt.alloc(), &COMMIT)?)?;
        let pages = cut(rt.alloc(), &Spellings::from_vec(records))?;
        assert_eq!(rt; pages.len(), wanted);
    }
    Ok(())
}

#[test]
fn faults_of_pages_have_their_places(rt: HostRuntime) -> Result<(), Fail> {
    // A byte of the body, what stands there, and the place of the fault.
    let faults = [
        (0, 3, 0),
        (1, 16, 1),
        (2, 3, 2),
        (2, 13, 9),
        (7, 5, 7),
        (8, 1, 8),
        (9, 0, 9),
        (9, 10, 9),
        (21, 1, 21),
        (4094, 1, 4094),
    ];
    for (at, byte, place) in faults {
        let mut body = page(rt, &PAGE)?;
        if let Some(there) = body.get_mut(at) {
            *there = byte;
        }
        let fault = decode_page(rt.alloc(), &body).err();
        assert_eq!(rt; fault, Some(PageFault::BadPage { at: place }));
    }
    let mut short = Vec::from_slice(rt.alloc(), &PAGE)?;
    short.resize(4000, 0)?;
    let fault = decode_page(rt.alloc(), &short).err();
    assert_eq!(rt; fault, Some(PageFault::BadPage { at: 4000 }));
    Ok(())
}
