//! The sizes of structures, and the bytes of all devices.

ghost use Rattle.std.specs.Prelude.{◌≡◌, ◌<◌, ◌≤◌, ◌+◌, ◌*◌, length, find, slice_get, sum_by, option_copied, IfSome};
ghost use Rattle.std.specs.List.{AllByRecursion};
ghost use Rattle.qsg_draft.specs.Contents.{HasBlocks};
ghost use Rattle.qsg_draft.specs.Lookups.{is_facility};
ghost use Rattle.qsg_draft.specs.Sizes.{size_of, data_set_bytes, log_bytes};

use qsg_num::{DATA_SET_HEADER, PAGE_BYTES, StructNo};
use qsg_objects::{Cfstruct, MemberDef, Objects, Size};

/// Elements of a structure without a FACILITY.
const DEFAULT_ELEMENTS: u32 = 65_536;

/// Bytes of the blocks of a data set without a FACILITY, at most.
const DEFAULT_DATA_SET_BYTES: u32 = 16_777_216;

/// The structure at a place in the order of numbers, from 0; None exactly where fewer were defined.
pub fn structure_at(objects: &Objects, at: usize) -> Option<&Cfstruct>
    requires blocks { AllByRecursion HasBlocks objects.now.structures }
    requires few { at < 4 }
    ensures value { option_copied result ≡ slice_get objects.now.structures at }
    ensures blocks { IfSome result (λ s. HasBlocks s.now) }
{
    match StructNo::new(at as u8 + 1) {
        Some(number) => objects.structure(number),
        None => None,
    }
}

/// The FACILITY of a structure; None exactly where it has none.
fn facility_of(facilities: &[(StructNo, Size)], number: StructNo) -> Option<&(StructNo, Size)>
    ensures { option_copied result ≡ find (is_facility number) facilities.now }
{
    facilities.iter().find(|f| f.0 == number)
}

/// The size of a structure.
pub fn size_of(facilities: &[(StructNo, Size)], structure: &Cfstruct) -> Size
    requires { HasBlocks structure.now }
    ensures { result ≡ size_of facilities.now structure.now }
{
    match facility_of(facilities, structure.number) {
        Some(facility) => facility.1,
        None => Size {
            elements: DEFAULT_ELEMENTS,
            blocks: DEFAULT_DATA_SET_BYTES / structure.definition.dsblock,
        },
    }
}

/// The bytes of a data set of a structure: its header, and its blocks.
fn data_set_bytes(facilities: &[(StructNo, Size)], structure: &Cfstruct) -> u64
    requires { HasBlocks structure.now }
    ensures value { result ≡ data_set_bytes facilities.now structure.now }
    ensures bound { result ≤ 4503599627374592 }
{
    let size = size_of(facilities, structure);
    u64::from(DATA_SET_HEADER) + u64::from(size.blocks) * u64::from(structure.definition.dsblock)
}

/// The bytes of a member's data sets.
fn set_bytes(objects: &Objects, facilities: &[(StructNo, Size)]) -> u64
    requires { AllByRecursion HasBlocks objects.now.structures }
    ensures value { result ≡ sum_by (data_set_bytes facilities.now) objects.now.structures }
    ensures bound { result ≤ 18014398509498368 }
{
    let mut bytes = 0;
    for at in 0..objects.structure_count() {
        if let Some(structure) = structure_at(objects, at) {
            bytes += data_set_bytes(facilities, structure);
        }
    }
    bytes
}

/// The bytes of the members' logs.
fn log_bytes(members: &[MemberDef]) -> u64
    requires { length members.now ≤ 8 }
    ensures value { result ≡ sum_by log_bytes members.now }
    ensures bound { result ≤ 140737488355328 }
{
    let mut bytes = 0;
    for member in members {
        bytes += u64::from(member.log_pages) * u64::from(PAGE_BYTES);
    }
    bytes
}

/// The bytes of all devices: each member has a log, and a data set of each structure.
pub fn device_bytes(
    objects: &Objects,
    facilities: &[(StructNo, Size)],
    members: &[MemberDef],
) -> u64
    requires blocks { AllByRecursion HasBlocks objects.now.structures }
    requires few { length members.now ≤ 8 }
    ensures { result ≡ sum_by log_bytes members.now + length members.now * sum_by (data_set_bytes facilities.now) objects.now.structures }
{
    log_bytes(members) + members.len() as u64 * set_bytes(objects, facilities)
}
