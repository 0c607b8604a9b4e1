//! Two members' logs: what units reserve, and a run.

ghost use Rattle.std.specs.Prelude.{◌≡◌, length, IfSome, IfOk};
ghost use Rattle.qsg_num.specs.declared.seats.Member.TheVariants as member;
ghost use Rattle.qsg_logs.specs.Writers.{new_writer};
ghost use Rattle.qsg_logs.specs.Kept.{log_in, no_fillings};

use super::*;
use qsg_disk_mem::MemDisk;
use qsg_logpage::{LogStep, NoLog, page_room};
use qsg_num::{Incarnation, Member, Page, PageNo, Pages, TaskNo, UnitName};
use std::alloc::Global;
use std::test::*;

const KEEP: PageNo = PageNo { number: 0 };

const FIRST: UnitName = UnitName {
    member: Member::One,
    incarnation: Incarnation { number: 1 },
    seq: 1,
};

const SECOND: UnitName = UnitName {
    member: Member::One,
    incarnation: Incarnation { number: 1 },
    seq: 2,
};

/// Two logs of two pages.
fn two_logs(alloc: Global) -> Option<Logs<MemDisk>>
    ensures two { IfSome result (λ l. length l ≡ 2) }
    ensures writer { IfSome result (λ l. (log_in member.One l).writer ≡ new_writer 2) }
    ensures fillings { IfSome result (λ l. (log_in member.One l).fillings ≡ no_fillings) }
{
    let mut items = Vec::new(alloc);
    items
        .push(MemberLog::new(MemDisk::new(alloc, 8192, Vec::new(alloc)).ok()?, 2))
        .ok()?;
    items
        .push(MemberLog::new(MemDisk::new(alloc, 8192, Vec::new(alloc)).ok()?, 2))
        .ok()?;
    Some(Logs::from_vec(items))
}

#[test]
fn units_reserve_what_they_need(rt: HostRuntime) {
    let Some(mut logs) = two_logs(rt.alloc()) else {
        assert!(rt; false);
        return;
    };
    // A record of 4,071 bytes and the commit, each behind the 3 bytes of its piece, fill a page of 4,088.
    assert_eq!(rt; logs.need(Member::One, TaskNo::One, None), 1);
    assert_eq!(rt; logs.need(Member::One, TaskNo::One, Some(4_071)), 1);
    assert_eq!(rt; logs.need(Member::One, TaskNo::One, Some(4_072)), 2);
    let first = logs.reserve(Member::One, TaskNo::One, FIRST, Some(4_072), KEEP);
    assert_eq!(rt; first, Ok(()));
    let second = logs.reserve(Member::One, TaskNo::Two, SECOND, None, KEEP);
    assert_eq!(rt; second, Err(NoLog { need: 1, free: 0 }));
}

#[test]
fn a_refused_unit_gives_its_pages_back(rt: HostRuntime) {
    let Some(mut logs) = two_logs(rt.alloc()) else {
        assert!(rt; false);
        return;
    };
    let first = logs.reserve(Member::One, TaskNo::One, FIRST, Some(4_072), KEEP);
    assert_eq!(rt; first, Ok(()));
    logs.fall_back(Member::One, TaskNo::One, FIRST, false);
    let second = logs.reserve(Member::One, TaskNo::Two, SECOND, Some(4_072), KEEP);
    assert_eq!(rt; second, Ok(()));
}

/// A body of ones.
fn one_page(alloc: Global) -> Option<Pages>
    ensures { IfSome result (λ p. length p ≡ 1) }
{
    let mut pages = Vec::new(alloc);
    pages
        .push(Page::from_vec(vec![in alloc; 1; 4095].ok()?))
        .ok()?;
    Some(Pages::from_vec(pages))
}

/// Makes the steps of a run of the first member. What they answered last.
fn write_all(logs: &mut Logs<MemDisk>) -> Option<LogStep> {
    let mut last = None;
    for _step in 0..9u32 {
        if logs.len() != 2 || logs.in_hand(Member::One).is_none() {
            break;
        }
        last = logs.next_step(Member::One).ok();
    }
    last
}

#[test]
fn a_run_is_written(rt: HostRuntime) {
    let (Some(mut logs), Some(run)) = (two_logs(rt.alloc()), one_page(rt.alloc())) else {
        assert!(rt; false);
        return;
    };
    if logs.need(Member::One, TaskNo::One, None) != 1 {
        assert!(rt; false);
        return;
    }
    if logs
        .reserve(Member::One, TaskNo::One, FIRST, None, KEEP)
        .is_err()
    {
        assert!(rt; false);
        return;
    }
    logs.begin(Member::One, FIRST, run);
    let last = write_all(&mut logs);
    assert_eq!(rt; last, Some(LogStep::PageSafe(PageNo { number: 0 })));
    if logs.len() == 2 {
        assert_eq!(rt; logs.next_page(Member::One).number, 1);
        assert_eq!(rt; logs.next_page(Member::Two).number, 0);
        let Ok(room) = page_room(rt.alloc()) else {
            assert!(rt; false);
            return;
        };
        let body = logs.read_page(Member::One, KEEP, room);
        assert!(rt; matches!(body, Ok(Some(_))));
        assert_eq!(rt; logs.cut(Member::One, 7), false);
        assert_eq!(rt; logs.next_page(Member::One).number, 1);
        logs.restart(Member::One, PageNo { number: 5 });
        assert_eq!(rt; logs.next_page(Member::One).number, 5);
        assert_eq!(rt; logs.size(Member::One), 2);
    }
}
