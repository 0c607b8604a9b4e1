//! Whether a member has an entry to forget, and in which structure.

ghost use Rattle.std.specs.Prelude.{◌≡◌};
ghost use Rattle.qsg_parts.specs.Owned.{owned};
ghost use Rattle.qsg_cleaning.specs.Finding.{has_cleaning, has_cleaning_in, first_to_clean};

use qsg_disk::Disk;
use qsg_lists::Connection;
use qsg_num::{EntryId, Member, StructNo};
use qsg_parts::Parts;

/// The structures that a group may have, in order.
const STRUCTURES: [StructNo; 4] = [
    StructNo::One,
    StructNo::Two,
    StructNo::Three,
    StructNo::Four,
];

/// Whether an active structure has an entry that this member is to forget.
fn has_cleaning_in<D: Disk>(parts: &Parts<D>, member: Member, structure: StructNo) -> bool
    ensures { result ≡ has_cleaning_in member (owned parts.now) structure }
{
    if usize::from(structure.get()) > parts.structures.len() {
        return false;
    }
    let Ok(seen) = parts.structures.connect(structure) else {
        return false;
    };
    let connection = Connection {
        structure,
        epoch: seen.connection.epoch,
    };
    let found = parts
        .structures
        .cleanup_after(connection, member, EntryId { number: 0 });
    matches!(found, Ok(Some(_)))
}

/// The first active structure, by number, with an entry that this member is to forget.
pub fn first_to_clean<D: Disk>(parts: &Parts<D>, member: Member) -> Option<StructNo>
    ensures { result ≡ first_to_clean member (owned parts.now) }
{
    STRUCTURES
        .iter()
        .copied()
        .find(|s| has_cleaning_in(parts, member, *s))
}

/// Whether there is such a structure: the member's system task has a cleaning to do.
pub fn has_cleaning<D: Disk>(parts: &Parts<D>, member: Member) -> bool
    ensures { result ≡ has_cleaning member (owned parts.now) }
{
    first_to_clean(parts, member).is_some()
}
