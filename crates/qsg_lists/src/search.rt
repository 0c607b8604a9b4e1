//! Look-ups in a list of entries.

ghost use Rattle.std.specs.Prelude.{◌≡◌, ℕ, ◌+◌, ◌^◌, ◌<◌, ◌≤◌, List, length, Option, Some, None, find, position, option_copied, IfSome, IfNone, not, ◌&&◌};
ghost use Rattle.std.specs.List.{list_all};
ghost use Rattle.qsg_lists.specs.declared.parts.Entry.{Entry};
ghost use Rattle.qsg_lists.specs.Marks.{names_member};
ghost use Rattle.qsg_lists.specs.Entries.{has_id, entry_at, is_above, is_marked_above, is_owned, is_cleanup_above, counts_in, depth_of, used_of, waits_for, turn_of, is_ahead, is_first, first_of};
ghost use Rattle.qsg_lists.specs.Found.{IsFound};

use crate::parts::{Entry, Mark, Place, Selector};
use qsg_num::{Delivery, EntryId, Incarnation, Member};

/// The entry of an id.
pub fn find_entry(entries: &[Entry], id: EntryId) -> Option<&Entry>
    ensures { option_copied result ≡ entry_at id entries.now }
{
    entries.iter().find(|e| e.id == id)
}

/// The entry of least id above an id.
pub fn find_above(entries: &[Entry], id: EntryId) -> Option<&Entry>
    ensures { option_copied result ≡ find (is_above id) entries.now }
{
    entries.iter().find(|e| id.get() < e.id.get())
}

/// The same among entries whose mark names this incarnation of the member.
pub fn find_marked_above(
    entries: &[Entry],
    member: Member,
    incarnation: Incarnation,
    id: EntryId,
) -> Option<&Entry>
    ensures { option_copied result ≡ find (is_marked_above member incarnation id) entries.now }
{
    entries.iter().find(|e| id.get() < e.id.get() && is_mark_of(&e.mark, member, incarnation))
}

fn is_mark_of(mark: &Mark, member: Member, incarnation: Incarnation) -> bool
    ensures { result ≡ names_member member incarnation mark.now }
{
    match mark {
        Mark::PutBy(unit) | Mark::GotBy(unit) => {
            unit.member == member && unit.incarnation == incarnation
        }
        Mark::Visible | Mark::Cleanup => false,
    }
}

/// The same among removed entries whose blocks are this owner's.
pub fn find_cleanup_above(entries: &[Entry], owner: Member, id: EntryId) -> Option<&Entry>
    ensures { option_copied result ≡ find (is_cleanup_above owner id) entries.now }
{
    entries.iter().find(|e| is_to_be_freed(e, owner, id))
}

fn is_to_be_freed(e: &Entry, owner: Member, id: EntryId) -> bool
    ensures { result ≡ is_cleanup_above owner id e.now }
{
    id.get() < e.id.get() && matches!(e.mark, Mark::Cleanup) && is_owned(&e.place, owner)
}

fn is_owned(place: &Place, owner: Member) -> bool
    ensures { result ≡ is_owned owner place.now }
{
    match place {
        Place::Inline(_) => false,
        Place::Offloaded { owner: other, .. } => *other == owner,
    }
}

/// How many entries a queue has, but for removed ones.
pub fn depth(entries: &[Entry], queue: &str) -> usize
    ensures { result ≡ depth_of queue.now entries.now }
{
    entries.iter().filter(|e| counts(e, queue)).count()
}

fn counts(e: &Entry, queue: &str) -> bool
    ensures { result ≡ counts_in queue.now e.now }
{
    !matches!(e.mark, Mark::Cleanup) && e.head.queue.is(queue)
}

/// The elements that entries take.
pub fn used(entries: &[Entry]) -> u32
    requires { used_of entries.now < 2 ^ 32 }
    ensures { result ≡ used_of entries.now }
{
    entries.iter().map(|e| e.place.cost()).sum()
}

/// The place of the entry of an id.
pub fn place_of(entries: &[Entry], id: EntryId) -> Option<usize>
    ensures none { IfNone result (entry_at id entries.now ≡ None) }
    ensures some { IfSome result (IsFound (has_id id) entries.now) }
{
    position_of(entries, id)
}

fn position_of(entries: &[Entry], id: EntryId) -> Option<usize>
    ensures { result ≡ position (has_id id) entries.now }
{
    entries.iter().position(|e| e.id == id)
}

/// The place of the entry that a get is given, by the definition word for word.
pub fn place_of_first(
    entries: &[Entry],
    queue: &str,
    order: Delivery,
    select: &Selector,
) -> Option<usize>
    ensures none { IfNone result (first_of queue.now order select.now entries.now ≡ None) }
    ensures some { IfSome result (IsFound (is_first queue.now order select.now entries.now) entries.now) }
{
    position_of_first(entries, queue, order, select)
}

fn position_of_first(
    entries: &[Entry],
    queue: &str,
    order: Delivery,
    select: &Selector,
) -> Option<usize>
    ensures { result ≡ position (is_first queue.now order select.now entries.now) entries.now }
{
    entries
        .iter()
        .position(|e| is_first(entries, queue, order, select, e))
}

/// Whether the entry waits and none that waits is ahead of it.
fn is_first(entries: &[Entry], queue: &str, order: Delivery, select: &Selector, e: &Entry) -> bool
    ensures { result ≡ is_first queue.now order select.now entries.now e.now }
{
    waits(e, queue, select) && none_ahead(entries, queue, order, select, e)
}

fn none_ahead(entries: &[Entry], queue: &str, order: Delivery, select: &Selector, e: &Entry) -> bool
    ensures { result ≡ list_all (λ x. not (waits_for queue.now select.now x && is_ahead order x e.now)) entries.now }
{
    entries.iter().all(|x| !(waits(x, queue, select) && comes_before(order, x, e)))
}

/// Whether a get may have the entry.
fn waits(e: &Entry, queue: &str, select: &Selector) -> bool
    ensures { result ≡ waits_for queue.now select.now e.now }
{
    matches!(e.mark, Mark::Visible) && e.head.queue.is(queue) && select.matches(&e.head)
}

fn comes_before(order: Delivery, a: &Entry, b: &Entry) -> bool
    ensures { result ≡ is_ahead order a.now b.now }
{
    let first = turn(order, a);
    let second = turn(order, b);
    first < second || (first == second && a.id.get() < b.id.get())
}

fn turn(order: Delivery, e: &Entry) -> u8
    ensures { result ≡ turn_of order e.now }
{
    match order {
        Delivery::Priority => 9 - e.head.priority.get(),
        Delivery::Fifo => 0,
    }
}
