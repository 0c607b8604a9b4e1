//! What the steps do to the parts of the group.

ghost use Rattle.std.specs.Prelude.{◌≡◌};
ghost use Rattle.qsg_lists.specs.Structures.{connect_answer};
ghost use Rattle.qsg_parts.specs.Owned.{owned};
ghost use Rattle.qsg_cleaning.specs.Needs.{HasStructure, MayClean};
ghost use Rattle.qsg_cleaning.specs.Steps.{structure_of, is_to_clean, connected, searched, search_answer, after_forgetting};

use crate::phases::Phase;
use qsg_disk::Disk;
use qsg_lists::{Connection, Entry, Mark, Place};
use qsg_num::{EntryId, Member, StructNo};
use qsg_parts::Parts;

/// Connects to a structure: the entry is looked for next, in its present epoch. None where it isn't active.
pub fn connect<D: Disk>(parts: &Parts<D>, structure: StructNo) -> Option<Phase>
    requires structure { HasStructure structure (owned parts.now) }
    ensures { result ≡ connected (connect_answer (structure_of structure (owned parts.now))) }
{
    match parts.structures.connect(structure) {
        Ok(seen) => Some(Phase::Search {
            epoch: seen.connection.epoch,
        }),
        Err(_) => None,
    }
}

/// Looks for the first entry that this member is to forget: it is forgotten next. None where there is none, or where the
/// structure doesn't serve the connection any more.
pub fn search<D: Disk>(parts: &Parts<D>, member: Member, connection: Connection) -> Option<Phase>
    requires structure { HasStructure connection.structure (owned parts.now) }
    ensures { result ≡ searched connection.epoch (search_answer member connection (owned parts.now)) }
{
    match parts
        .structures
        .cleanup_after(connection, member, EntryId { number: 0 })
    {
        Ok(Some(entry)) => Some(Phase::Forget {
            epoch: connection.epoch,
            id: entry.id,
        }),
        Ok(None) => None,
        Err(_) => None,
    }
}

/// Whether an entry is removed and its body stands in this member's data set.
fn is_to_clean(entry: &Entry, member: Member) -> bool
    ensures { result ≡ is_to_clean member entry.now }
{
    match entry.place {
        Place::Inline(_) => false,
        Place::Offloaded { owner, .. } => matches!(entry.mark, Mark::Cleanup) && owner == member,
    }
}

/// Makes the blocks of an entry free, where the member's map stands for the epoch of the connection, and forgets the
/// entry. An entry that the member isn't to forget stays, with its blocks.
pub fn forget<D: Disk>(parts: &mut Parts<D>, member: Member, connection: Connection, id: EntryId)
    requires may { MayClean member connection.structure (owned parts.old) }
    ensures { owned parts.new ≡ after_forgetting member connection id (owned parts.old) }
{
    let Ok(Some(entry)) = parts.structures.entry_at(connection, id) else {
        return;
    };
    if !is_to_clean(entry, member) {
        return;
    }
    if let Place::Offloaded { blocks, .. } = &entry.place {
        let set = parts.datasets.set_mut(member, connection.structure);
        set.free(connection.epoch, blocks);
    }
    let _ = parts.structures.forget(connection, id);
}
