//! Changes of a list of entries.

ghost use Rattle.std.specs.Prelude.{◌≡◌, ◌<◌, length, slice_get, slice_index_or, option_map, option_and_then};
ghost use Rattle.qsg_lists.specs.declared.parts.Entry.{Entry};
ghost use Rattle.qsg_lists.specs.Marks.{names_unit, is_cleanup};
ghost use Rattle.qsg_lists.specs.Entries.{AreInOrder, entry_at, first_of};
ghost use Rattle.qsg_lists.specs.Settling.{settled_entry, told_by, revise_if_done, deleted};
ghost use Rattle.qsg_lists.specs.Taking.{mark_found, got_by};
ghost use Rattle.qsg_lists.specs.Found.{replaced};

use crate::parts::{Entry, Mark, Place, Selector, Settled};
use crate::search;
use qsg_num::{Delivery, EntryId, UnitName};

/// Commits or backs out what a unit did to the entry of an id.
pub fn settle(entries: &mut Vec<Entry>, id: EntryId, unit: &UnitName, commits: bool) -> Settled
    requires { AreInOrder entries.old.items }
    ensures answer { result ≡ told_by (names_unit unit.now) (entry_at id entries.old.items) }
    ensures after { entries.new.items ≡ revise_if_done result id (settled_entry commits) entries.old.items }
{
    let Some(place) = search::place_of(entries, id) else {
        return Settled::NotYours(None);
    };
    let mark = entries[place].mark;
    if !mark.is_of(unit) {
        return Settled::NotYours(Some(mark));
    }
    settle_at(entries, place, commits);
    Settled::Done
}

/// Leaves of the entry at a place what a commit or a backout leaves.
fn settle_at(entries: &mut Vec<Entry>, place: usize, commits: bool)
    requires { place < length entries.old.items }
    ensures { (d : Entry) → entries.new.items ≡ replaced place (settled_entry commits (slice_index_or entries.old.items place d)) entries.old.items }
{
    let stays = match &entries[place].mark {
        Mark::PutBy(_) => commits,
        Mark::GotBy(_) => !commits,
        Mark::Visible => true,
        Mark::Cleanup => {
            return;
        }
    };
    if stays {
        entries[place].mark = Mark::Visible;
    } else if matches!(entries[place].place, Place::Offloaded { .. }) {
        entries[place].mark = Mark::Cleanup;
    } else {
        entries.remove(place);
    }
}

/// Deletes the entry of an id, where it is removed.
pub fn forget(entries: &mut Vec<Entry>, id: EntryId) -> Settled
    requires { AreInOrder entries.old.items }
    ensures answer { result ≡ told_by is_cleanup (entry_at id entries.old.items) }
    ensures after { entries.new.items ≡ revise_if_done result id deleted entries.old.items }
{
    let Some(place) = search::place_of(entries, id) else {
        return Settled::NotYours(None);
    };
    let mark = entries[place].mark;
    if !matches!(mark, Mark::Cleanup) {
        return Settled::NotYours(Some(mark));
    }
    entries.remove(place);
    Settled::Done
}

/// Marks the entry that a get is given, and answers its place.
pub fn take(
    entries: &mut Vec<Entry>,
    unit: UnitName,
    queue: &str,
    order: Delivery,
    select: &Selector,
) -> Option<usize>
    requires { AreInOrder entries.old.items }
    ensures after { entries.new.items ≡ mark_found unit (first_of queue.now order select.now entries.old.items) entries.old.items }
    ensures at { option_and_then (λ i. slice_get entries.new.items i) result
        ≡ option_map (got_by unit) (first_of queue.now order select.now entries.old.items) }
{
    match search::place_of_first(entries, queue, order, select) {
        Some(place) => {
            entries[place].mark = Mark::GotBy(unit);
            Some(place)
        }
        None => None,
    }
}
