//! What the steps do to the parts of the group.

ghost use Rattle.std.specs.Prelude.{◌≡◌, ◌<◌, ◌≤◌, ◌+◌, ◌^◌, min, length, None, Some, Option, IfOk, OnErr};
ghost use Rattle.qsg_num.specs.Seats.{member_number, structure_number, structure_at};
ghost use Rattle.qsg_num.specs.Faults.{Rose};
ghost use Rattle.qsg_lists.specs.Structures.{connect_answer};
ghost use Rattle.qsg_repo.specs.Lives.{first_open};
ghost use Rattle.qsg_manager.specs.Facilities.{structure_in};
ghost use Rattle.qsg_logs.specs.Kept.{log_in};
ghost use Rattle.qsg_parts.specs.Owned.{owned};
ghost use Rattle.qsg_logs.specs.Reading.{IsFound};
ghost use Rattle.qsg_walk.specs.Walks.{Walk as WalkSeen, after_read};
ghost use Rattle.qsg_peer.specs.declared.phases.FailedLife.{FailedLife as LifeSeen};
ghost use Rattle.qsg_peer.specs.Works.{IsSoundAt};
ghost use Rattle.qsg_peer.specs.Needs.{HasLog, HasStructure};
ghost use Rattle.qsg_peer.specs.Steps.{found_phase, from_structure, after_structure, walking, first_walk, HasRead, HasKept, connected, searched, search_answer, counted, settled_stage, mark_answer, with_mark_off, with_resolved};

use crate::phases::{FailedLife, Phase, Stage};
use qsg_disk::{Disk, Failed};
use qsg_lists::{Connection, Lost, Settled};
use qsg_manager::MarkedEntry;
use qsg_num::{EntryId, Names, PAGE_BYTES, StructNo};
use qsg_parts::Parts;
use qsg_walk::Walk;
use std::alloc::Global;

/// The phase in which a failed incarnation is found, if there is one to work on.
pub fn find<D: Disk>(parts: &Parts<D>, skip: &Names) -> Option<Phase>
    ensures { result ≡ found_phase (first_open skip.now (owned parts.now).repo.lives) }
{
    let (member, incarnation) = parts.repo.first_failed(skip)?;
    Some(Phase::Low(FailedLife {
        member,
        incarnation,
    }))
}

/// A walk over the log of a failed member, from its low page on. Takes no memory.
pub fn first_walk<D: Disk>(alloc: Global, parts: &Parts<D>, of: FailedLife) -> Walk
    requires log { HasLog of.member (owned parts.now) }
    ensures { result ≡ first_walk of (owned parts.now) }
{
    let low = parts.repo.low(of.member);
    Walk::new(alloc, low, parts.logs.size(of.member))
}

/// What comes next is the structure of a number, where the group has so many; behind the last one the incarnation is
/// resolved.
fn from_structure(count: usize, number: u8) -> Stage
    ensures next { result ≡ from_structure count number }
    ensures sound { (life : LifeSeen) (walk : WalkSeen) → walk.left ≡ 0 → IsSoundAt life result walk }
{
    match StructNo::new(number) {
        Some(structure) => {
            if usize::from(structure.get()) <= count {
                Stage::Connect(structure)
            } else {
                Stage::Resolve
            }
        }
        None => Stage::Resolve,
    }
}

/// What comes behind a structure.
fn after_structure(count: usize, structure: StructNo) -> Stage
    ensures next { result ≡ after_structure count structure }
    ensures sound { (life : LifeSeen) (walk : WalkSeen) → walk.left ≡ 0 → IsSoundAt life result walk }
{
    from_structure(count, structure.get() + 1)
}

/// The walk goes on, or the first structure comes next.
pub fn walking(count: usize, walk: &Walk) -> Stage
    ensures next { result ≡ walking count walk.now }
    ensures sound { (life : LifeSeen) → IsSoundAt life result walk.now }
{
    match walk.next() {
        Some(_) => Stage::Read,
        None => from_structure(count, 1),
    }
}

/// Reads the next page of a walk over the log of a failed member, into room for a page, and keeps it.
pub fn read<D: Disk>(
    parts: &mut Parts<D>,
    of: FailedLife,
    walk: &mut Walk,
    room: Vec<u8>,
) -> Result<(), Failed>
    requires room { length room.items ≡ PAGE_BYTES }
    requires log { HasLog of.member (owned parts.old) }
    requires goes_on { 0 < walk.old.left }
    ensures read { HasRead of (owned parts.old) (owned parts.new) }
    ensures found { IfOk result (λ done. HasKept of walk.old.next walk.old (owned parts.old) walk.new) }
    ensures stays { OnErr result (walk.new ≡ walk.old) }
    ensures failed { OnErr result (Rose (log_in of.member (owned parts.old).logs).faults (log_in of.member (owned parts.new).logs).faults) }
{
    let next = walk.next().unwrap();
    let found = parts.logs.read_page(of.member, next, room)?;
    walk.keep(found);
    Ok(())
}

/// Connects to a structure: its marks are looked for next, or the next structure comes.
pub fn connect<D: Disk>(parts: &Parts<D>, structure: StructNo) -> Stage
    requires structure { HasStructure structure (owned parts.now) }
    ensures next { result ≡ connected structure (length (owned parts.now).structures) (connect_answer (structure_in structure (owned parts.now).structures)) }
    ensures sound { (life : LifeSeen) (walk : WalkSeen) → walk.left ≡ 0 → walk.kept ≡ None → IsSoundAt life result walk }
{
    match parts.structures.connect(structure) {
        Ok(seen) => {
            let connection = Connection {
                structure,
                epoch: seen.connection.epoch,
            };
            Stage::Search {
                connection,
                after: EntryId { number: 0 },
            }
        }
        Err(_) => after_structure(parts.structures.len(), structure),
    }
}

/// Looks for the next mark in a structure: it comes off next, or the next structure comes.
pub fn search<D: Disk>(
    parts: &Parts<D>,
    of: FailedLife,
    connection: Connection,
    after: EntryId,
) -> Stage
    requires structure { HasStructure connection.structure (owned parts.now) }
    ensures next { result ≡ searched connection (length (owned parts.now).structures) (search_answer of connection after (owned parts.now)) }
    ensures sound { (walk : WalkSeen) → walk.left ≡ 0 → walk.kept ≡ None → IsSoundAt of result walk }
{
    let answer = parts
        .structures
        .marked_after(connection, of.member, of.incarnation, after);
    match answer {
        Ok(Some(found)) => Stage::Settle { connection, found },
        Ok(None) => after_structure(parts.structures.len(), connection.structure),
        Err(_) => after_structure(parts.structures.len(), connection.structure),
    }
}

/// Takes a mark off, as the commit or the backout of its unit does.
pub fn settle<D: Disk>(
    parts: &mut Parts<D>,
    connection: Connection,
    found: MarkedEntry,
    commits: bool,
) -> Result<Settled, Lost>
    requires structure { HasStructure connection.structure (owned parts.old) }
    ensures answer { result ≡ mark_answer connection found (owned parts.old) }
    ensures after { owned parts.new ≡ with_mark_off connection found commits (owned parts.old) }
{
    parts
        .structures
        .settle(connection, found.id, found.unit, commits)
}

/// What comes behind a settle with this answer.
pub fn settled_stage(
    connection: Connection,
    id: EntryId,
    count: usize,
    answer: &Result<Settled, Lost>,
) -> Stage
    ensures next { result ≡ settled_stage connection id count answer.now }
    ensures sound { (life : LifeSeen) (walk : WalkSeen) → walk.left ≡ 0 → walk.kept ≡ None → IsSoundAt life result walk }
{
    match answer {
        Ok(_) => Stage::Search {
            connection,
            after: id,
        },
        Err(_) => after_structure(count, connection.structure),
    }
}

/// The number of marks that came off, with this answer.
pub fn counted(answer: &Result<Settled, Lost>, count: u32) -> u32
    ensures { result ≡ counted answer.now count }
{
    match answer {
        Ok(Settled::Done) => count.saturating_add(1),
        _ => count,
    }
}

/// Tells that no mark of the incarnation stands.
pub fn resolve<D: Disk>(parts: &mut Parts<D>, of: FailedLife)
    ensures { owned parts.new ≡ with_resolved of (owned parts.old) }
{
    parts.repo.resolve(of.member, of.incarnation);
}
