//! What the steps do to the parts of the group.

ghost use Rattle.std.specs.Prelude.{◌≡◌, ◌≤◌, ◌<◌, IfOk, IsErrOf, OnErr, true};
ghost use Rattle.qsg_num.specs.Faults.{Rose};
ghost use Rattle.qsg_dataset.specs.declared.data_set.LoadError.TheVariants as error;
ghost use Rattle.qsg_datasets.specs.Kept.{HasSet, set_in, with_set};
ghost use Rattle.qsg_datasets.specs.Calls.{IsStorageSame};
ghost use Rattle.qsg_rebuild.specs.Needs.{IsWithin};
ghost use Rattle.qsg_rebuild.specs.Steps.{loading, shutting, loaded_phase, LoadsMap, claimed_by};

use crate::phases::Phase;
use qsg_dataset::LoadError;
use qsg_datasets::{DataSets, Found, MemberDataSet};
use qsg_disk::Disk;
use qsg_lists::{Lost, Place, Seen};
use qsg_num::{EntryId, Member, StructNo};
use std::alloc::Global;

/// The id below those of all entries.
const NO_ID: EntryId = EntryId { number: 0 };

/// What comes once the structure was connected to: its header is read for the epoch that is told.
pub fn loading(answer: Result<Seen, Lost>) -> Phase
    ensures { result ≡ loading answer }
{
    match answer {
        Ok(seen) => Phase::Load {
            epoch: seen.connection.epoch,
            is_served: true,
        },
        Err(lost) => Phase::Load {
            epoch: lost.epoch,
            is_served: false,
        },
    }
}

/// What comes once the map is made: a gate that reads 0 isn't written.
pub fn shutting(is_open: bool) -> Phase
    ensures { result ≡ shutting is_open }
{
    if is_open { Phase::Shut } else { Phase::Sync }
}

/// What comes once the header was read.
pub fn loaded_phase(is_served: bool, epoch: u32, found: Found) -> Phase
    ensures { result ≡ loaded_phase is_served epoch found }
{
    if is_served && !found.has_map {
        Phase::Scan {
            epoch,
            after: NO_ID,
            is_open: found.gate_open,
        }
    } else {
        shutting(found.gate_open)
    }
}

/// Reads the header, and makes a map for an epoch, which is kept where the structure serves its users. An error leaves
/// the map as it was; no byte changes.
pub fn load<D: Disk>(
    alloc: Global,
    set: &mut MemberDataSet<D>,
    epoch: u32,
    is_served: bool,
) -> Result<Found, LoadError>
    ensures loaded { IfOk result (λ found. LoadsMap epoch is_served found set.old set.new) }
    ensures memory { IsErrOf result error.NoMemory → set.new ≡ set.old }
    ensures later { set.old.contents.faults ≤ set.new.contents.faults }
    ensures cause { IsErrOf result error.Failed → Rose set.old.contents.faults set.new.contents.faults }
    ensures same { OnErr result (IsStorageSame set.old set.new) }
    ensures bytes { OnErr result (set.old.contents.tells ≡ true → set.new.contents.bytes ≡ set.old.contents.bytes) }
{
    let found = set.load(alloc, epoch)?;
    set.kept();
    if !is_served {
        set.drop_map();
    }
    Ok(found)
}

/// Makes the blocks of a body used in the map of its owner, if this is the owner.
pub fn claim<D: Disk>(
    datasets: &mut DataSets<D>,
    member: Member,
    structure: StructNo,
    place: &Place,
)
    requires has { HasSet member structure datasets.old }
    requires within { IsWithin member (set_in member structure datasets.old).contents.blocks place.now }
    ensures { datasets.new ≡ with_set member structure (claimed_by member place.now (set_in member structure datasets.old)) datasets.old }
{
    if let Place::Offloaded { owner, blocks, .. } = place {
        if *owner == member {
            datasets.set_mut(member, structure).claim(blocks);
        }
    }
}
