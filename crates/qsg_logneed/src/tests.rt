//! Runs at the ends of their pages, against what their records are cut into.

use crate::{Filling, commit_bytes, got_bytes, put_bytes};
use qsg_logrec::{Spellings, cut};
use qsg_num::{Bytes, PAGE_NUMBERS};
use std::test::*;

/// Bytes of the record that ended a unit in logs of pages of version 1.
const OLD_COMMIT: u32 = 10;

#[test]
fn a_put_and_its_commit_take_pages_by_the_body(rt: HostRuntime) -> Result<(), Fail> {
    // The body of a put to a queue with a name of two bytes, the bytes of the commit, and the pages of both.
    let rows = [
        (8_080, commit_bytes(), 2),
        (8_081, commit_bytes(), 3),
        (8_081, OLD_COMMIT, 2),
        (8_082, OLD_COMMIT, 3),
        (0, commit_bytes(), 1),
        (3_995, commit_bytes(), 1),
        (3_996, commit_bytes(), 2),
        (4_194_304, commit_bytes(), 1_027),
    ];
    for (body, commit, pages) in rows {
        let unit = Filling::new().with(put_bytes(2, body)).with(commit);
        assert_eq!(rt; unit.pages(), pages, "a body of {body} bytes");
    }
    assert_eq!(rt; Filling::new().pages(), 0);
    assert_eq!(rt; Filling::new().with(commit_bytes()).pages(), 1);
    assert_eq!(rt;
        Filling::new()
            .with(got_bytes())
            .with(commit_bytes())
            .pages(),
        1
    );
    Ok(())
}

/// Pages that records of these lengths are cut into.
fn pages_of_cut(rt: HostRuntime, lengths: &[u32]) -> Result<usize, Fail> {
    let mut records = Vec::new(rt.alloc());
    for length in lengths {
        let mut record = Vec::new(rt.alloc());
        record.resize(*length as usize, 7)?;
        records.push(Bytes::from_vec(record))?;
    }
    Ok(cut(rt.alloc(), &Spellings::from_vec(records))?.len())
}

#[test]
fn pages_are_those_that_records_are_cut_into(rt: HostRuntime) -> Result<(), Fail> {
    let runs: [&[u32]; 16] = [
        &[],
        &[0],
        &[1],
        &[4_085],
        &[4_086],
        &[8_170],
        &[8_171],
        &[4_082, 0, 1],
        &[4_081, 1],
        &[4_080, 1],
        &[4_080, 2],
        &[4_080, 1, 1],
        &[11, 11, 4_046, 11],
        &[11, 11, 4_047, 11],
        &[74, 19, 19, 20_000, 11],
        &[65_536, 4_085, 4_082, 84, 11],
    ];
    for run in runs {
        let mut filling = Filling::new();
        for length in run {
            assert!(rt; filling.pages() <= PAGE_NUMBERS);
            filling = filling.with(*length);
        }
        assert_eq!(rt; filling.pages() as usize, pages_of_cut(rt, run)?);
    }
    Ok(())
}
