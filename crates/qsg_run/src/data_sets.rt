//! What the report shows of the data sets of a group.

ghost use Rattle.std.specs.Prelude.{◌≡◌, ◌++◌, [], IfOk, OnOk};
ghost use Rattle.std.specs.List.{cons_option, filter_map, flat_map};
ghost use Rattle.qsg_shown.specs.Showing.{dataset_shown, dataset_at, datasets_at, every_structure};

use qsg_disk::Disk;
use qsg_num::{Member, StructNo};
use qsg_report::ShownDataSet;
use qsg_shown::show_data_set;
use qsg_sysplex::Sysplex;
use std::alloc::AllocError;

/// The structures that a group may have.
pub const EVERY_STRUCTURE: [StructNo; 4] = [
    StructNo::One,
    StructNo::Two,
    StructNo::Three,
    StructNo::Four,
];

/// The data set of a member for a structure.
fn data_set<D: Disk + Drop>(
    sysplex: &Sysplex<D>,
    member: Member,
    structure: StructNo,
) -> ShownDataSet
    ensures { result ≡ dataset_shown sysplex.now member structure }
{
    sysplex.kept();
    show_data_set(sysplex.parts(), member, structure, sysplex.is_up(member))
}

/// Adds the one of a structure, if that is defined.
fn push_data_set<D: Disk + Drop>(
    items: &mut Vec<ShownDataSet>,
    sysplex: &Sysplex<D>,
    member: Member,
    structure: StructNo,
) -> Result<(), AllocError>
    ensures { OnOk result (items.new.items ≡ items.old.items ++ cons_option (dataset_at sysplex.now member structure) []) }
{
    match sysplex.parts().objects.structure(structure) {
        Some(_) => {
            items.push(data_set(sysplex, member, structure))?;
            Ok(())
        }
        None => Ok(()),
    }
}

/// Adds those of these structures.
fn push_row<D: Disk + Drop>(
    items: &mut Vec<ShownDataSet>,
    sysplex: &Sysplex<D>,
    member: Member,
    structures: &[StructNo],
) -> Result<(), AllocError>
    ensures { OnOk result (items.new.items ≡ items.old.items ++ filter_map (dataset_at sysplex.now member) structures.now) }
{
    for structure in structures {
        push_data_set(items, sysplex, member, *structure)?;
    }
    Ok(())
}

/// Adds those of a member, if the group has it.
fn push_member<D: Disk + Drop>(
    items: &mut Vec<ShownDataSet>,
    sysplex: &Sysplex<D>,
    member: Member,
) -> Result<(), AllocError>
    ensures { OnOk result (items.new.items ≡ items.old.items ++ datasets_at sysplex.now member) }
{
    match sysplex.members().as_slice().get(member.index()) {
        Some(_) => push_row(items, sysplex, member, &EVERY_STRUCTURE),
        None => Ok(()),
    }
}

/// Adds those of each of these members.
pub fn push_data_sets<D: Disk + Drop>(
    items: &mut Vec<ShownDataSet>,
    sysplex: &Sysplex<D>,
    members: &[Member],
) -> Result<(), AllocError>
    ensures { OnOk result (items.new.items ≡ items.old.items ++ flat_map (datasets_at sysplex.now) members.now) }
{
    for member in members {
        push_member(items, sysplex, *member)?;
    }
    Ok(())
}
