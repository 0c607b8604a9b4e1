//! What the report shows of a group.

ghost use Rattle.std.specs.Prelude.{◌≡◌, ◌++◌, [], map, option_map, slice_get, IfOk, OnOk};
ghost use Rattle.std.specs.List.{cons_option, filter_map};
ghost use Rattle.qsg_lists.specs.Entries.{used_of};
ghost use Rattle.qsg_manager.specs.Facilities.{structure_in};
ghost use Rattle.qsg_shown.specs.Showing.{seen, member_shown, member_at, structure_seen, structure_at, queue_shown, queues_shown, IsShown};
ghost use Rattle.qsg_run.specs.Shows.{wait_shown, waits_of};

use crate::data_sets::{EVERY_STRUCTURE, push_data_sets};
use qsg_disk::Disk;
use qsg_num::{Actor, Member, Name, StructNo};
use qsg_objects::{Cfstruct, MemberDef, Queue};
use qsg_report::{Shown, ShownMember, ShownQueue, ShownStructure, ShownWait};
use qsg_shown::{incarnation_of, pages_of, show_failures, show_member, show_queue, show_structure};
use qsg_sysplex::Sysplex;
use std::alloc::{AllocError, Global};

/// The members that a group may have.
const EVERY_MEMBER: [Member; 8] = [
    Member::One,
    Member::Two,
    Member::Three,
    Member::Four,
    Member::Five,
    Member::Six,
    Member::Seven,
    Member::Eight,
];

/// A member of a group, by its definition.
fn member<D: Disk + Drop>(
    sysplex: &Sysplex<D>,
    number: Member,
    definition: &MemberDef,
) -> Result<ShownMember, AllocError>
    ensures { IfOk result (λ m. m ≡ member_shown sysplex.now number definition.now) }
{
    let parts = sysplex.parts();
    let incarnation = incarnation_of(&parts.managers, number);
    let pages = pages_of(&parts.logs, &parts.repo, number);
    show_member(definition, sysplex.is_up(number), incarnation, pages)
}

/// Adds the member of a number, if the group has it.
fn push_member<D: Disk + Drop>(
    items: &mut Vec<ShownMember>,
    sysplex: &Sysplex<D>,
    number: Member,
) -> Result<(), AllocError>
    ensures { OnOk result (items.new.items ≡ items.old.items ++ cons_option (member_at sysplex.now number) []) }
{
    match sysplex.members().as_slice().get(number.index()) {
        Some(definition) => {
            items.push(member(sysplex, number, definition)?)?;
            Ok(())
        }
        None => Ok(()),
    }
}

/// Adds those of these numbers.
fn push_members<D: Disk + Drop>(
    items: &mut Vec<ShownMember>,
    sysplex: &Sysplex<D>,
    numbers: &[Member],
) -> Result<(), AllocError>
    ensures { OnOk result (items.new.items ≡ items.old.items ++ filter_map (member_at sysplex.now) numbers.now) }
{
    for number in numbers {
        push_member(items, sysplex, *number)?;
    }
    Ok(())
}

/// A structure of a group, by its definition.
fn structure<D: Disk + Drop>(
    alloc: Global,
    sysplex: &Sysplex<D>,
    number: StructNo,
    definition: &Cfstruct,
) -> Result<ShownStructure, AllocError>
    ensures { IfOk result (λ s. seen s ≡ structure_seen definition.now (structure_in number sysplex.now.parts.structures)) }
{
    let name = &definition.definition.name;
    let entries = sysplex.entries(number);
    show_structure(
        alloc,
        name,
        sysplex.state(number),
        sysplex.size(number),
        entries,
    )
}

/// Adds the structure of a number, if one is defined.
fn push_structure<D: Disk + Drop>(
    alloc: Global,
    items: &mut Vec<ShownStructure>,
    sysplex: &Sysplex<D>,
    number: StructNo,
) -> Result<(), AllocError>
    ensures { OnOk result (map seen items.new.items ≡ map seen items.old.items ++ cons_option (structure_at sysplex.now number) []) }
{
    match sysplex.parts().objects.structure(number) {
        Some(definition) => {
            items.push(structure(alloc, sysplex, number, definition)?)?;
            Ok(())
        }
        None => Ok(()),
    }
}

/// Adds those of these numbers.
fn push_structures<D: Disk + Drop>(
    alloc: Global,
    items: &mut Vec<ShownStructure>,
    sysplex: &Sysplex<D>,
    numbers: &[StructNo],
) -> Result<(), AllocError>
    ensures { OnOk result (map seen items.new.items ≡ map seen items.old.items ++ filter_map (structure_at sysplex.now) numbers.now) }
{
    for number in numbers {
        push_structure(alloc, items, sysplex, *number)?;
    }
    Ok(())
}

/// The elements in use of a structure, which are as many as its entries or more.
fn used<D: Disk + Drop>(sysplex: &Sysplex<D>, number: StructNo) -> u32
    ensures { result ≡ used_of (structure_in number sysplex.now.parts.structures).entries }
{
    sysplex.size(number).0
}

/// A queue of a group.
fn queue<D: Disk + Drop>(sysplex: &Sysplex<D>, queue: &Queue) -> Result<ShownQueue, AllocError>
    ensures { IfOk result (λ q. q ≡ queue_shown sysplex.now queue.now) }
{
    let _most = used(sysplex, queue.structure);
    show_queue(&queue.definition.name, sysplex.entries(queue.structure))
}

/// Adds the queue at a place, if there is one.
fn push_queue<D: Disk + Drop>(
    items: &mut Vec<ShownQueue>,
    sysplex: &Sysplex<D>,
    at: usize,
) -> Result<(), AllocError>
    ensures { OnOk result (items.new.items ≡ items.old.items ++ cons_option (option_map (queue_shown sysplex.now) (slice_get sysplex.now.parts.objects.queues at)) []) }
{
    match sysplex.parts().objects.queue_at(at) {
        Some(found) => {
            items.push(queue(sysplex, found)?)?;
            Ok(())
        }
        None => Ok(()),
    }
}

/// Adds all queues.
fn push_queues<D: Disk + Drop>(
    items: &mut Vec<ShownQueue>,
    sysplex: &Sysplex<D>,
) -> Result<(), AllocError>
    ensures { OnOk result (items.new.items ≡ items.old.items ++ queues_shown sysplex.now) }
{
    for at in 0..sysplex.parts().objects.queue_count() {
        push_queue(items, sysplex, at)?;
    }
    Ok(())
}

/// Adds an actor, if it waits.
fn push_wait<D: Disk + Drop>(
    items: &mut Vec<ShownWait>,
    sysplex: &Sysplex<D>,
    actor: Actor,
) -> Result<(), AllocError>
    ensures { OnOk result (items.new.items ≡ items.old.items ++ cons_option (wait_shown sysplex.now actor) []) }
{
    match sysplex.cause(actor) {
        Some(cause) => {
            items.push(ShownWait { actor, cause })?;
            Ok(())
        }
        None => Ok(()),
    }
}

/// Adds those of these actors that wait.
fn push_waits<D: Disk + Drop>(
    items: &mut Vec<ShownWait>,
    sysplex: &Sysplex<D>,
    actors: &[Actor],
) -> Result<(), AllocError>
    ensures { OnOk result (items.new.items ≡ items.old.items ++ waits_of actors.now sysplex.now) }
{
    for actor in actors {
        push_wait(items, sysplex, *actor)?;
    }
    Ok(())
}

/// What a report shows of a group with these actors.
pub fn shown_of<D: Disk + Drop>(
    alloc: Global,
    sysplex: &Sysplex<D>,
    actors: &[Actor],
) -> Result<Shown, AllocError>
    ensures { IfOk result (IsShown (waits_of actors.now sysplex.now) sysplex.now) }
{
    let mut members = Vec::new(alloc);
    push_members(&mut members, sysplex, &EVERY_MEMBER)?;
    let mut structures = Vec::new(alloc);
    push_structures(alloc, &mut structures, sysplex, &EVERY_STRUCTURE)?;
    let mut queues = Vec::new(alloc);
    push_queues(&mut queues, sysplex)?;
    let mut datasets = Vec::new(alloc);
    push_data_sets(&mut datasets, sysplex, &EVERY_MEMBER)?;
    let mut waits = Vec::new(alloc);
    push_waits(&mut waits, sysplex, actors)?;
    Ok(Shown {
        group: Name::from_str(alloc, sysplex.group())?,
        members,
        structures,
        queues,
        datasets,
        failed: show_failures(alloc, &sysplex.parts().repo, sysplex.tallies())?,
        waits,
    })
}
