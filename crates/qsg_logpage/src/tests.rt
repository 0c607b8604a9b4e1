//! A run of pages, cut after each of its steps, on lap 0 and on a later lap.

ghost use Rattle.std.specs.Prelude.{◌≡◌, IfOk, length};

use crate::{LogWriter, page_room, read_page};
use qsg_disk::Disk;
use qsg_disk_mem::MemDisk;
use qsg_num::{Incarnation, Member, Page, PageNo, Pages, UnitName};
use std::alloc::{AllocError, Global};
use std::test::Fail;

const UNIT: UnitName = UnitName {
    member: Member::One,
    incarnation: Incarnation { number: 1 },
    seq: 1,
};

/// Picks of a cut, and whether each leaves the gate of page 0 or of page 1 open that was 0 and written as 1.
const GATES: [(u64, bool, bool); 4] = [
    (0, false, false),
    (1, true, true),
    (9, true, true),
    (300, true, false),
];

/// Two bodies of ones.
fn two_pages(alloc: Global) -> Result<Pages, AllocError>
    ensures { IfOk result (λ p. length p ≡ 2) }
{
    let mut pages = Vec::new(alloc);
    pages.push(Page::from_vec(vec![in alloc; 1; 4095]?))?;
    pages.push(Page::from_vec(vec![in alloc; 1; 4095]?))?;
    Ok(Pages::from_vec(pages))
}

/// Whether each of three pages is read from a page on.
fn read_from(alloc: Global, disk: &mut MemDisk, first: u32) -> [bool; 3] {
    let mut found = [false; 3];
    for i in 0..3 {
        let number = first.saturating_add(i as u32);
        if disk.size() == 12288
            && let Ok(room) = page_room(alloc)
        {
            found[i] = matches!(read_page(disk, PageNo { number }, room), Ok(Some(_)));
        }
    }
    found
}

/// What the pages before the gates of a run of lap 1 are: three whole ones of lap 0.
fn fill(disk: &mut MemDisk) -> bool {
    let mut done = true;
    for at in [0, 4096, 8192] {
        if disk.size() == 12288 {
            done &= disk.write(at, &[1, 2, 0, 4, 0, 0, 0, 0]).is_ok();
        }
    }
    done && disk.sync().is_ok()
}

/// The pages that are read after so many steps of a run of two pages, those that failed among them, and a cut: from
/// page 0 on for a run from there, from page 2 on for one from page 3, behind three pages of lap 0. One call of the
/// device fails; call 0 never comes.
fn after(
    alloc: Global,
    failing: u32,
    later: bool,
    steps: u32,
    pick: u64,
) -> Result<[bool; 3], AllocError> {
    let mut disk = MemDisk::new(alloc, 12288, vec![in alloc; failing; 1]?)?;
    if later && !fill(&mut disk) {
        return Ok([false; 3]);
    }
    let start = if later { 3 } else { 0 };
    let keep = if later { 2 } else { 0 };
    let mut log = LogWriter::new(3, PageNo { number: start });
    if log.reserve(UNIT, 2, PageNo { number: keep }).is_err() {
        return Ok([false; 3]);
    }
    log.begin(UNIT, two_pages(alloc)?);
    for _step in 0..steps {
        if log.in_hand().is_none() || disk.size() != 12288 {
            break;
        }
        let _ = log.next_step(&mut disk);
    }
    if disk.size() == 12288 {
        let _ = disk.power_cut(pick, 0);
    }
    Ok(read_from(alloc, &mut disk, keep))
}

/// A page whose gate is written and not safe is whole where the cut leaves the gate other than 0.
#[test]
fn a_run_after_each_step(rt: HostRuntime) -> Result<(), Fail> {
    let alloc = rt.alloc();
    for (later, one_page, two_pages) in [(false, 4, 8), (true, 6, 12)] {
        for (pick, first_opens, second_opens) in GATES {
            for steps in 0..13u32 {
                let next = steps.saturating_add(1);
                let first = steps >= one_page || (first_opens && next == one_page);
                let second = steps >= two_pages || (second_opens && next == two_pages);
                let expected = if later {
                    [true, first, second]
                } else {
                    [first, second, false]
                };
                assert_eq!(rt; after(alloc, 0, later, steps, pick)?, expected);
            }
        }
    }
    Ok(())
}

/// Each call of the device fails once, and its step is made again.
#[test]
fn a_run_over_a_failing_device(rt: HostRuntime) -> Result<(), Fail> {
    let alloc = rt.alloc();
    for call in 1..9u32 {
        assert_eq!(rt; after(alloc, call, false, 8, 0)?, [true, false, false]);
        assert_eq!(rt; after(alloc, call, false, 9, 0)?, [true, true, false]);
    }
    // Four calls make the three pages of lap 0.
    for call in 5..19u32 {
        assert_eq!(rt; after(alloc, call, true, 12, 0)?, [true, true, false]);
        assert_eq!(rt; after(alloc, call, true, 13, 0)?, [true, true, true]);
    }
    Ok(())
}

/// A cut right after the call that failed. A pick, and the first call whose failure leaves the first page whole.
#[test]
fn a_cut_after_a_failure(rt: HostRuntime) -> Result<(), Fail> {
    for (pick, opens) in [(0, 5), (1, 4), (9, 3)] {
        for call in 1..9u32 {
            let expected = [call >= opens, call >= opens + 4, false];
            assert_eq!(rt; after(rt.alloc(), call, false, call, pick)?, expected);
        }
    }
    Ok(())
}
