//! A repository of three members and two structures, of which the first has persistent messages.

ghost use Rattle.std.specs.Prelude.{◌≡◌};

use super::*;
use qsg_num::{EntryId, Incarnation, Member, Names, PageNo, StructNo, TaskNo, UnitName};
use std::test::Fail;

const GROUP: [bool; 4] = [true, false, true, true];

const UNIT: UnitName = UnitName {
    member: Member::Two,
    incarnation: Incarnation { number: 1 },
    seq: 1,
};

fn page(number: u32) -> PageNo {
    PageNo { number }
}

fn note_to(top: u64, low: [PageNo; 8]) -> Note
    ensures { result.low ≡ low }
{
    Note {
        backup: UNIT,
        from: PageNo { number: 3 },
        until: PageNo { number: 4 },
        top: EntryId { number: top },
        low,
    }
}

/// Pages that are kept while low pages, notes and holds come and go.
#[test]
fn what_is_kept(rt: HostRuntime) -> Result<(), Fail> {
    let (one, two, task) = (Member::One, Member::Two, TaskNo::One);
    let (kept, plain) = (StructNo::One, StructNo::Two);
    let mut repo = Repo::new(rt.alloc(), 3, 2, GROUP, 0)?;

    // nothing is given up before the first note
    assert!(rt; repo.publish_low(one, page(5)));
    assert!(rt; repo.publish_low(one, page(3)));
    assert_eq!(rt; (repo.low(one), repo.low(two)), (page(5), page(0)));
    assert_eq!(rt; repo.keep(one), page(0));
    assert_eq!(rt; repo.note(kept), None);

    // a backup holds the low pages, and its note keeps them
    let lows = repo.hold(two, task);
    assert_eq!(rt; lows, repo.lows());
    assert!(rt; repo.put_note(two, task, kept, note_to(7, lows)));
    assert_eq!(rt; repo.note(kept), Some(note_to(7, lows)));
    assert!(rt; repo.publish_low(one, page(9)));
    assert_eq!(rt; (repo.keep(one), repo.keep(two)), (page(5), page(0)));

    // a note of an older backup isn't kept, nor one of the other structure looked at
    let later = repo.hold(two, task);
    assert!(rt; !repo.put_note(two, task, kept, note_to(6, later)));
    let later = repo.hold(two, task);
    assert!(rt; repo.put_note(two, task, plain, note_to(6, later)));
    assert_eq!(rt; repo.note(kept), Some(note_to(7, lows)));
    assert_eq!(rt; repo.keep(one), page(5));
    Ok(())
}

/// The note of a purge needs no page before the low ones, and its epoch is above those given and kept.
#[test]
fn what_a_purge_leaves(rt: HostRuntime) -> Result<(), Fail> {
    let structure = StructNo::Two;
    let mut repo = Repo::new(rt.alloc(), 3, 2, GROUP, 0)?;
    assert!(rt; repo.publish_low(Member::One, page(5)));
    assert_eq!(rt; repo.purge_note(structure, 2, UNIT), 3);
    let purged = Note {
        backup: UNIT,
        from: page(0),
        until: page(0),
        top: EntryId { number: 3 << 40 },
        low: repo.lows(),
    };
    assert_eq!(rt; repo.note(structure), Some(purged));
    assert_eq!(rt; repo.purge_note(structure, 1, UNIT), 4);
    Ok(())
}

/// A RECOVER holds the pages of the note that it read.
#[test]
fn what_a_recovery_holds(rt: HostRuntime) -> Result<(), Fail> {
    let (one, three, task) = (Member::One, Member::Three, TaskNo::System);
    let structure = StructNo::One;
    let mut repo = Repo::new(rt.alloc(), 3, 2, GROUP, 0)?;
    assert_eq!(rt; repo.note_hold(three, task, structure), None);
    assert!(rt; repo.publish_low(one, page(9)));
    assert_eq!(rt; repo.purge_note(structure, 0, UNIT), 1);
    assert_eq!(rt; repo.keep(one), page(0));
    repo.smds_done(three, task, structure, true);
    assert_eq!(rt; repo.keep(one), page(9));
    let lows = repo.hold(three, task);
    assert!(rt; repo.publish_low(one, page(20)));
    assert_eq!(rt; (lows[0], repo.keep(one)), (page(9), page(9)));
    repo.release(three, task);
    assert_eq!(rt; repo.keep(one), page(9));
    Ok(())
}

/// Incarnations that start, crash, stop and are resolved.
#[test]
fn what_became_of_members(rt: HostRuntime) -> Result<(), Fail> {
    let alloc = rt.alloc();
    let (one, two) = (Member::One, Member::Two);
    let first = Incarnation { number: 1 };
    let none = Names::from_slice(alloc, &[])?;
    let skip = Names::from_slice(alloc, &[(one, first)])?;
    let mut repo = Repo::new(alloc, 3, 2, GROUP, 3)?;
    assert_eq!(rt; repo.started(two), first);
    assert_eq!(rt; repo.started(one), first);
    assert_eq!(rt; repo.first_failed(&none), None);
    repo.crashed(two, first);
    repo.crashed(one, first);
    assert_eq!(rt; repo.first_failed(&none), Some((one, first)));
    assert_eq!(rt; repo.first_failed(&skip), Some((two, first)));
    assert!(rt; !repo.publish_low(one, page(1)));
    assert_eq!(rt; repo.low(one), page(0));
    assert!(rt; repo.resolve(one, first));
    assert!(rt; !repo.resolve(one, first));
    assert_eq!(rt; repo.first_failed(&skip), Some((two, first)));
    assert!(rt; repo.publish_low(one, page(1)));
    repo.stopped(one);
    assert_eq!(rt; repo.low(one), page(1));
    Ok(())
}

/// The states of data sets: what a use, a stop, and the begin and both ends of a recovery make of each.
#[test]
fn what_becomes_of_data_sets(rt: HostRuntime) -> Result<(), Fail> {
    let (one, task, structure) = (Member::One, TaskNo::One, StructNo::One);
    let rows = [
        (
            Status::New,
            Status::Active,
            Status::New,
            Status::New,
            Status::New,
        ),
        (
            Status::Active,
            Status::Active,
            Status::Empty,
            Status::Active,
            Status::Active,
        ),
        (
            Status::Empty,
            Status::Active,
            Status::Empty,
            Status::Empty,
            Status::Empty,
        ),
        (
            Status::Failed,
            Status::Failed,
            Status::Failed,
            Status::InRecover,
            Status::Failed,
        ),
        (
            Status::InRecover,
            Status::InRecover,
            Status::InRecover,
            Status::InRecover,
            Status::Failed,
        ),
        (
            Status::Recovered,
            Status::Active,
            Status::Recovered,
            Status::Recovered,
            Status::Recovered,
        ),
    ];
    let mut repo = Repo::new(rt.alloc(), 3, 2, GROUP, 0)?;
    for (status, used, stopped, dirty, undone) in rows {
        let now = Smds {
            access: Access::Enabled,
            status,
        };
        repo.set_smds(one, structure, now);
        assert_eq!(rt; repo.smds_use(one, structure), Access::Enabled);
        assert_eq!(rt; repo.smds(one, structure).status, used);
        repo.set_smds(one, structure, now);
        repo.smds_stopped(one, structure, 1);
        assert_eq!(rt; repo.smds(one, structure), now);
        repo.smds_stopped(one, structure, 0);
        assert_eq!(rt; repo.smds(one, structure).status, stopped);
        repo.set_smds(one, structure, now);
        let was_failed = repo.smds_dirty(structure);
        assert_eq!(rt; was_failed, status == Status::Failed);
        assert_eq!(rt; repo.smds_all(structure)[0].status, dirty);
        repo.smds_done(one, task, structure, false);
        assert_eq!(rt; repo.smds(one, structure).status, undone);
    }
    Ok(())
}

/// What isn't enabled isn't used, and a recovery that ends well enables it.
#[test]
fn what_is_suspended(rt: HostRuntime) -> Result<(), Fail> {
    let (one, task, structure) = (Member::One, TaskNo::One, StructNo::Two);
    let suspended = Smds {
        access: Access::Suspended,
        status: Status::Empty,
    };
    let in_recovery = Smds {
        access: Access::Suspended,
        status: Status::InRecover,
    };
    let recovered = Smds {
        access: Access::Enabled,
        status: Status::Recovered,
    };
    let mut repo = Repo::new(rt.alloc(), 3, 2, GROUP, 0)?;
    repo.set_smds(one, structure, suspended);
    assert_eq!(rt; repo.smds_use(one, structure), Access::Suspended);
    assert_eq!(rt; repo.smds(one, structure), suspended);
    repo.set_smds(one, structure, in_recovery);
    repo.smds_done(one, task, structure, true);
    assert_eq!(rt; repo.smds(one, structure), recovered);
    Ok(())
}
