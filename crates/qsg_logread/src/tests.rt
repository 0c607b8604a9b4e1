//! Logs of both versions, fed page by page.

use crate::{FeedError, Reader};
use qsg_logrec::{LogRecord, Spellings, StructSet, cut, encode};
use qsg_msg::Message;
use qsg_num::{
    Body, EntryId, Incarnation, LogWhy, Member, Name, Page, PageNo, Pages, Priority, QueueName,
    StructNo, UnitName,
};
use std::alloc::{AllocError, Global};
use std::test::*;

/// What the page of the commit of QM1/1/1 begins with: in version 1, and in version 2 with structure 1.
const OLD_COMMIT: [u8; 20] = [1, 0, 13, 0, 0, 0, 0, 1, 0, 10, 3, 1, 0, 0, 0, 1, 0, 0, 0, 1];

const COMMIT_IN: [u8; 21] = [
    2, 0, 14, 0, 0, 0, 0, 1, 0, 11, 7, 1, 0, 0, 0, 1, 0, 0, 0, 1, 1,
];

fn unit(seq: u32) -> UnitName {
    UnitName {
        member: Member::One,
        incarnation: Incarnation { number: 1 },
        seq,
    }
}

fn page(alloc: Global, front: &[u8]) -> Result<Page, AllocError> {
    let mut body = vec![in alloc; 0; 4095]?;
    for (i, byte) in front.iter().enumerate() {
        if i < 4095 {
            body[i] = *byte;
        }
    }
    Ok(Page::from_vec(body))
}

fn message(alloc: Global, length: u16) -> Result<Message, Fail> {
    let body = vec![in alloc; 7; usize::from(length)]?;
    Ok(Message {
        id: EntryId::new(1),
        structure: StructNo::One,
        queue: QueueName::from_name(Name::from_str(alloc, "Q1")?)?,
        priority: Priority::Zero,
        persistent: true,
        msg_id: [0; 24],
        correl_id: [0; 24],
        body: Body::from_slice(alloc, &body)?,
    })
}

/// The pages of a unit that puts a message of this length, from structure 1, and is committed.
fn run(alloc: Global, seq: u32, length: u16) -> Result<Pages, Fail> {
    let mut records = Vec::new(alloc);
    let put = LogRecord::Put(unit(seq), message(alloc, length)?);
    records.push(encode(alloc, &put)?)?;
    let commit = LogRecord::CommitIn(unit(seq), StructSet::one(StructNo::One));
    records.push(encode(alloc, &commit)?)?;
    Ok(cut(alloc, &Spellings::from_vec(records))?)
}

/// A page as version 1 has it.
fn old_page(alloc: Global, page: &Page) -> Result<Page, AllocError> {
    let mut body = Vec::from_slice(alloc, page.as_slice())?;
    body[0] = 1;
    Ok(Page::from_vec(body))
}

/// The pages of version 1 of a unit that puts a message of this length and is committed.
fn old_run(alloc: Global, length: u16) -> Result<Pages, Fail> {
    let mut records = Vec::new(alloc);
    let put = LogRecord::Put(unit(1), message(alloc, length)?);
    records.push(encode(alloc, &put)?)?;
    records.push(encode(alloc, &LogRecord::Commit(unit(1)))?)?;
    let pages = cut(alloc, &Spellings::from_vec(records))?;
    let mut old = Vec::new(alloc);
    for i in 0..pages.len() {
        old.push(old_page(alloc, pages.page(i))?)?;
    }
    Ok(Pages::from_vec(old))
}

/// How many records end in a page.
fn fed(reader: &mut Reader, no: u32, page: &Page) -> Result<usize, Fail> {
    let records = reader
        .feed(PageNo { number: no }, page)
        .ok()
        .ok_or("records")?;
    Ok(records.as_slice().len())
}

#[test]
fn commits_of_both_versions(rt: HostRuntime) -> Result<(), Fail> {
    let pages: [(&[u8], Option<u8>); 2] = [(&OLD_COMMIT, None), (&COMMIT_IN, Some(1))];
    for (front, set) in pages {
        let mut reader = Reader::new(rt.alloc());
        assert!(rt; !reader.committed(unit(1)));
        assert_eq!(rt; fed(&mut reader, 0, &page(rt.alloc(), front)?)?, 1);
        assert!(rt; reader.committed(unit(1)));
        assert!(rt; !reader.committed(unit(2)));
        let found = reader.structures(unit(1)).map(|s| s.get());
        assert_eq!(rt; found, set);
        assert!(rt; reader.structures(unit(2)).is_none());
    }
    Ok(())
}

#[test]
fn a_commit_in_behind_a_commit_names_its_structures(rt: HostRuntime) -> Result<(), Fail> {
    for fronts in [
        [&OLD_COMMIT as &[u8], &COMMIT_IN],
        [&COMMIT_IN, &OLD_COMMIT],
    ] {
        let mut reader = Reader::new(rt.alloc());
        for front in fronts {
            assert_eq!(rt; fed(&mut reader, 0, &page(rt.alloc(), front)?)?, 1);
        }
        assert_eq!(rt; reader.structures(unit(1)).map(|s| s.get()), Some(1));
    }
    Ok(())
}

/// How many records end in each page of a log of one unit, and whether it is committed then.
fn counts(alloc: Global, pages: &Pages) -> Result<(Vec<usize>, bool), Fail> {
    let mut reader = Reader::new(alloc);
    let mut counts = Vec::new(alloc);
    let mut no = 0u32;
    for i in 0..pages.len() {
        counts.push(fed(&mut reader, no, pages.page(i))?)?;
        no = no.saturating_add(1);
    }
    Ok((counts, reader.committed(unit(1))))
}

/// A message and a commit on one page, on two, with one byte more, and a message that takes three pages.
#[test]
fn runs_of_several_pages(rt: HostRuntime) -> Result<(), Fail> {
    let runs: [(u16, &[usize]); 4] = [
        (0, &[2]),
        (8080, &[0, 2]),
        (8081, &[0, 1, 1]),
        (12000, &[0, 0, 2]),
    ];
    for (length, expected) in runs {
        let (counts, committed) = counts(rt.alloc(), &run(rt.alloc(), 1, length)?)?;
        assert_eq!(rt; counts.as_slice(), expected);
        assert!(rt; committed);
    }
    Ok(())
}

/// Lengths of a message, the bytes that are in use on the first page of its unit in version 1, and the records that
/// end on each page: 84 and 13 bytes on one page; two pages that are full; one byte more.
#[test]
fn runs_of_version_1(rt: HostRuntime) -> Result<(), Fail> {
    let runs: [(u16, [u8; 3], &[usize]); 3] = [
        (5, [1, 0, 97], &[2]),
        (8081, [1, 15, 248], &[0, 2]),
        (8082, [1, 15, 248], &[0, 1, 1]),
    ];
    for (length, front, expected) in runs {
        let pages = old_run(rt.alloc(), length)?;
        if pages.len() > 0 {
            assert_eq!(rt; &pages.page(0).as_slice()[..3], front.as_slice());
        }
        let (counts, committed) = counts(rt.alloc(), &pages)?;
        assert_eq!(rt; counts.as_slice(), expected);
        assert!(rt; committed);
    }
    Ok(())
}

/// Of a run that a crash cut short nothing is left once another begins.
#[test]
fn a_run_cut_short(rt: HostRuntime) -> Result<(), Fail> {
    let short = run(rt.alloc(), 1, 8080)?;
    let whole = run(rt.alloc(), 2, 8080)?;
    if short.len() == 2 && whole.len() == 2 {
        let mut reader = Reader::new(rt.alloc());
        assert_eq!(rt; fed(&mut reader, 0, short.page(0))?, 0);
        assert_eq!(rt; fed(&mut reader, 1, whole.page(0))?, 0);
        assert_eq!(rt; fed(&mut reader, 2, whole.page(1))?, 2);
        assert!(rt; !reader.committed(unit(1)));
        assert!(rt; reader.committed(unit(2)));
        assert_eq!(rt; fed(&mut reader, 3, short.page(1))?, 1);
        assert!(rt; reader.committed(unit(1)));
    }
    Ok(())
}

#[test]
fn faults_have_their_pages_and_places(rt: HostRuntime) -> Result<(), Fail> {
    let no = PageNo { number: 9 };
    // Bytes of a page with a commit that change, and why it is refused.
    let faults: [(usize, u8, LogWhy); 4] = [
        (0, 3, LogWhy::BadPage { page: no, at: 0 }),
        (21, 1, LogWhy::BadPage { page: no, at: 21 }),
        (10, 8, LogWhy::BadRecord { page: no, at: 0 }),
        (20, 16, LogWhy::BadRecord { page: no, at: 10 }),
    ];
    for (at, byte, why) in faults {
        let mut front = Vec::from_slice(rt.alloc(), &COMMIT_IN)?;
        front.push(0)?;
        if let Some(there) = front.get_mut(at) {
            *there = byte;
        }
        let mut reader = Reader::new(rt.alloc());
        let bad = reader.feed(no, &page(rt.alloc(), &front)?).err();
        assert_eq!(rt; bad, Some(FeedError::Fault(why)));
        assert!(rt; !reader.committed(unit(1)));
        assert_eq!(rt; fed(&mut reader, 9, &page(rt.alloc(), &COMMIT_IN)?)?, 1);
    }
    Ok(())
}
