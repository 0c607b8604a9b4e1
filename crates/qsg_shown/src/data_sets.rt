//! A data set, as it is shown.

ghost use Rattle.std.specs.Prelude.{◌≡◌, if◌then◌else◌, Some, None};
ghost use Rattle.qsg_manager.specs.Facilities.{structure_in};
ghost use Rattle.qsg_datasets.specs.Kept.{set_in};
ghost use Rattle.qsg_parts.specs.Owned.{HasDataSets, owned};
ghost use Rattle.qsg_shown.specs.Showing.{used_blocks, set_shown};

use qsg_datasets::MemberDataSet;
use qsg_disk::Disk;
use qsg_num::{Member, StructNo};
use qsg_parts::Parts;
use qsg_report::ShownDataSet;

/// How many blocks of a data set are used by the map that stands for an epoch of its structure.
fn used_blocks<D: Disk>(set: &MemberDataSet<D>, epoch: u32) -> u32
    ensures { result ≡ used_blocks epoch set.now }
{
    set.kept();
    set.used(epoch)
}

/// What is told of a member that is up.
fn told(up: bool, number: u32) -> Option<u32>
    ensures { result ≡ if up then Some number else None }
{
    if up { Some(number) } else { None }
}

/// The data set of a member for a structure: how many of its blocks are used in the structure's epoch, where the member is
/// up, and how many it has. One that the group doesn't have has no blocks. Takes time by the number of its blocks.
pub fn show_data_set<D: Disk>(
    parts: &Parts<D>,
    member: Member,
    structure: StructNo,
    up: bool,
) -> ShownDataSet
    requires sets { HasDataSets (owned parts.now) }
    ensures { result ≡ set_shown member structure up (structure_in structure parts.now.structures).epoch (set_in member structure parts.now.datasets) }
{
    let (mut used, mut blocks) = (0, 0);
    if member.index() < parts.datasets.len() && structure.index() < parts.structures.len() {
        let (_, epoch) = parts.structures.structure(structure).state();
        let set = parts.datasets.set(member, structure);
        used = used_blocks(set, epoch);
        blocks = set.blocks();
    }
    ShownDataSet {
        member,
        structure,
        used: told(up, used),
        blocks,
    }
}
