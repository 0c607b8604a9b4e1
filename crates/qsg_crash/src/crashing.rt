//! The crash of a member.

ghost use Rattle.std.specs.Prelude.{◌≡◌, ◌<◌, ◌≤◌, ◌+◌, ◌++◌, length};
ghost use Rattle.qsg_unitlog.specs.Tells.{is_last};
ghost use Rattle.qsg_manager.specs.Seats.{with_down};
ghost use Rattle.qsg_manager.specs.Storage.{manager_in};
ghost use Rattle.qsg_logs.specs.Kept.{log_in};
ghost use Rattle.qsg_parts.specs.Owned.{owned, HasMember};
ghost use Rattle.qsg_crash.specs.Crashes.{MayCrash, IsCrash, latched_unit};

use qsg_disk::Disk;
use qsg_manager::{idle_task, latch};
use qsg_model::Item;
use qsg_num::Member;
use qsg_parts::Parts;
use std::alloc::Global;

/// Whether the last page of a member's run is in hand.
fn is_last<D: Disk>(parts: &Parts<D>, member: Member) -> bool
    requires member { HasMember member (owned parts.now) }
    ensures { result ≡ is_last (log_in member (owned parts.now).logs).writer }
{
    match parts.logs.in_hand(member) {
        Some(page) => page.last,
        None => false,
    }
}

/// Adds the unit of the task that has the latch of a member's log to the history, in room that was reserved. The task
/// holds nothing then.
fn commit<D: Disk>(alloc: Global, parts: &mut Parts<D>, member: Member)
    requires member { HasMember member (owned parts.old) }
    requires room { 0 < (owned parts.old).history.room }
    ensures rest { owned parts.new ≡ record (owned parts.old) { managers = (owned parts.new).managers; history = (owned parts.new).history } }
    ensures down { with_down member (owned parts.new).managers ≡ with_down member (owned parts.old).managers }
    ensures incarnation { (manager_in member (owned parts.new).managers).incarnation ≡ (manager_in member (owned parts.old).managers).incarnation }
    ensures count { length (owned parts.new).managers ≡ length (owned parts.old).managers }
    ensures items { (owned parts.new).history.items ≡ (owned parts.old).history.items ++ latched_unit (manager_in member (owned parts.old).managers).tasks }
    ensures room { (owned parts.old).history.room ≤ (owned parts.new).history.room + length (latched_unit (manager_in member (owned parts.old).managers).tasks) }
{
    let Some(task) = latch(&parts.managers, member) else {
        return;
    };
    let held = parts.managers.replace_task(member, task, idle_task(alloc));
    if let Some(unit) = held.unit {
        parts.history.push(Item::Unit(unit, held.ops));
    }
}

/// A member that is up crashes. Its log and its data sets lose their power, and `pick` says what that leaves of the bytes
/// that weren't safe; a unit whose last page was in hand is in the history exactly where the cut left that page whole. The
/// member's tasks hold nothing then, it keeps no map and no blocks of its data sets, it is down, and its incarnation is
/// failed and unresolved. Takes no memory.
pub fn crash<D: Disk>(alloc: Global, parts: &mut Parts<D>, member: Member, pick: u64)
    requires may { MayCrash member (owned parts.old) }
    ensures { IsCrash member (owned parts.old) (owned parts.new) }
{
    let last = is_last(parts, member);
    let left = parts.logs.cut(member, pick);
    parts.datasets.cut(alloc, member, pick);
    if last && left {
        commit(alloc, parts, member);
    }
    let incarnation = parts.managers.manager(member).incarnation;
    parts.managers.end_member(alloc, member);
    parts.repo.crashed(member, incarnation);
}
