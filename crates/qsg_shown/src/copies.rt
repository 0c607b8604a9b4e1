//! Copies of entries.

ghost use Rattle.std.specs.Prelude.{◌≡◌, IfOk};

use qsg_lists::{Entry, Head, Place};
use std::alloc::{AllocError, Global};

fn copy_head(head: &Head) -> Result<Head, AllocError>
    ensures { IfOk result (λ h. h ≡ head.now) }
{
    Ok(Head {
        queue: head.queue.clone()?,
        priority: head.priority,
        persistent: head.persistent,
        msg_id: head.msg_id,
        correl_id: head.correl_id,
    })
}

fn copy_place(place: &Place) -> Result<Place, AllocError>
    ensures { IfOk result (λ p. p ≡ place.now) }
{
    match place {
        Place::Inline(body) => Ok(Place::Inline(body.clone()?)),
        Place::Offloaded {
            owner,
            blocks,
            length,
        } => Ok(Place::Offloaded {
            owner: *owner,
            blocks: blocks.clone()?,
            length: *length,
        }),
    }
}

fn copy_entry(entry: &Entry) -> Result<Entry, AllocError>
    ensures { IfOk result (λ e. e ≡ entry.now) }
{
    Ok(Entry {
        id: entry.id,
        head: copy_head(&entry.head)?,
        place: copy_place(&entry.place)?,
        mark: entry.mark,
    })
}

/// A copy of each of these entries.
pub fn copy_entries(alloc: Global, entries: &[Entry]) -> Result<Vec<Entry>, AllocError>
    ensures { IfOk result (λ copies. copies.items ≡ entries.now) }
{
    let mut copies = Vec::new(alloc);
    for entry in entries {
        copies.push(copy_entry(entry)?)?;
    }
    Ok(copies)
}
