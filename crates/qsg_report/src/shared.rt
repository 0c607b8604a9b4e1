//! What all members share: failures, structures, entries and queues.

ghost use Rattle.std.specs.Prelude.{◌≡◌, ◌++◌, codes, OnOk};
ghost use Rattle.std.specs.List.{flat_map};
ghost use Rattle.qsg_report.specs.Shared.{every_member, count_text, counts_text, resolved_text, failure_text, structure_line, mark_text, blocks_text, place_text, entry_text, entries_text, queue_text};

use crate::shown::{ShownFailure, ShownQueue, ShownStructure};
use crate::words::{push_named, push_of};
use qsg_answers::{
    Labels, push_counted, push_id, push_incarnation, push_kind, push_member, push_state, push_text,
    push_unit,
};
use qsg_lists::{Entry, Mark, Place};
use qsg_num::{Block, Member};
use std::alloc::AllocError;

/// All members that a group may have, in order.
const EVERY_MEMBER: [Member; 8] = [
    Member::One,
    Member::Two,
    Member::Three,
    Member::Four,
    Member::Five,
    Member::Six,
    Member::Seven,
    Member::Eight,
];

/// A member and how many entries it settled; nothing where it settled none.
fn push_count(
    out: &mut Vec<u8>,
    labels: &Labels,
    member: Member,
    count: u32,
) -> Result<(), AllocError>
    ensures { OnOk result (out.new.items ≡ out.old.items ++ count_text labels.now member count) }
{
    if count == 0 {
        return Ok(());
    }
    push_text(out, b" ")?;
    push_member(out, labels, member)?;
    push_counted(out, b" ", u64::from(count))
}

/// How many entries each of these members settled.
fn push_counts(
    out: &mut Vec<u8>,
    labels: &Labels,
    counts: &[u32; 8],
    members: &[Member],
) -> Result<(), AllocError>
    ensures { OnOk result (out.new.items ≡ out.old.items ++ counts_text labels.now counts.now members.now) }
{
    for member in members {
        push_count(out, labels, *member, counts[member.index()])?;
    }
    Ok(())
}

fn resolved_word(resolved: bool) -> &'static [u8]
    ensures { result.now ≡ resolved_text resolved }
{
    if resolved {
        b" resolved"
    } else {
        b" unresolved"
    }
}

/// A line for an incarnation that failed.
#[tactic(auto, unfolding(crate::specs::Shared::failure_text))]
fn push_failure(
    out: &mut Vec<u8>,
    labels: &Labels,
    failure: &ShownFailure,
) -> Result<(), AllocError>
    ensures { OnOk result (out.new.items ≡ out.old.items ++ failure_text labels.now failure.now) }
{
    push_text(out, b"failed ")?;
    push_incarnation(out, labels, failure.member, failure.incarnation)?;
    push_text(out, resolved_word(failure.resolved))?;
    push_counts(out, labels, &failure.counts, &EVERY_MEMBER)?;
    push_text(out, b"\n")
}

/// A line for each.
pub(crate) fn push_failures(
    out: &mut Vec<u8>,
    labels: &Labels,
    failed: &[ShownFailure],
) -> Result<(), AllocError>
    ensures { OnOk result (out.new.items ≡ out.old.items ++ flat_map (failure_text labels.now) failed.now) }
{
    for failure in failed {
        push_failure(out, labels, failure)?;
    }
    Ok(())
}

/// A line for a structure.
#[tactic(auto, unfolding(crate::specs::Shared::structure_line))]
fn push_structure_line(
    out: &mut Vec<u8>,
    labels: &Labels,
    structure: &ShownStructure,
) -> Result<(), AllocError>
    ensures { OnOk result (out.new.items ≡ out.old.items ++ structure_line labels.now structure.now) }
{
    push_named(out, b"structure ", structure.name.as_str())?;
    push_text(out, b" ")?;
    push_state(out, labels, structure.state)?;
    push_counted(out, b" epoch ", u64::from(structure.epoch))?;
    push_text(out, b" used ")?;
    push_of(out, structure.used, structure.capacity)
}

/// A line for each.
pub(crate) fn push_structures(
    out: &mut Vec<u8>,
    labels: &Labels,
    structures: &[ShownStructure],
) -> Result<(), AllocError>
    ensures { OnOk result (out.new.items ≡ out.old.items ++ flat_map (structure_line labels.now) structures.now) }
{
    for structure in structures {
        push_structure_line(out, labels, structure)?;
    }
    Ok(())
}

/// Who may have an entry.
fn push_mark(out: &mut Vec<u8>, labels: &Labels, mark: Mark) -> Result<(), AllocError>
    ensures { OnOk result (out.new.items ≡ out.old.items ++ mark_text labels.now mark) }
{
    match mark {
        Mark::Visible => push_text(out, b" visible"),
        Mark::PutBy(unit) => {
            push_text(out, b" put ")?;
            push_unit(out, labels, unit)
        }
        Mark::GotBy(unit) => {
            push_text(out, b" got ")?;
            push_unit(out, labels, unit)
        }
        Mark::Cleanup => push_text(out, b" cleanup"),
    }
}

fn push_blocks(out: &mut Vec<u8>, blocks: &[Block]) -> Result<(), AllocError>
    ensures { OnOk result (out.new.items ≡ out.old.items ++ blocks_text blocks.now) }
{
    for block in blocks {
        push_counted(out, b" ", u64::from(block.number))?;
    }
    Ok(())
}

/// Where the body of an entry is.
fn push_place(out: &mut Vec<u8>, labels: &Labels, place: &Place) -> Result<(), AllocError>
    ensures { OnOk result (out.new.items ≡ out.old.items ++ place_text labels.now place.now) }
{
    match place {
        Place::Inline(body) => push_counted(out, b" inside ", u64::from(body.len())),
        Place::Offloaded {
            owner,
            blocks,
            length,
        } => {
            push_text(out, b" at ")?;
            push_member(out, labels, *owner)?;
            push_counted(out, b" length ", u64::from(*length))?;
            push_text(out, b" blocks")?;
            push_blocks(out, blocks.as_slice())
        }
    }
}

/// A line for an entry.
#[tactic(auto, unfolding(crate::specs::Shared::entry_text))]
fn push_entry(out: &mut Vec<u8>, labels: &Labels, entry: &Entry) -> Result<(), AllocError>
    ensures { OnOk result (out.new.items ≡ out.old.items ++ entry_text labels.now entry.now) }
{
    push_text(out, b"entry ")?;
    push_id(out, entry.id)?;
    push_named(out, b" ", entry.head.queue.as_str())?;
    push_kind(out, entry.head.priority, entry.head.persistent)?;
    push_mark(out, labels, entry.mark)?;
    push_place(out, labels, &entry.place)?;
    push_text(out, b"\n")
}

/// A line for each.
fn push_entries(out: &mut Vec<u8>, labels: &Labels, entries: &[Entry]) -> Result<(), AllocError>
    ensures { OnOk result (out.new.items ≡ out.old.items ++ flat_map (entry_text labels.now) entries.now) }
{
    for entry in entries {
        push_entry(out, labels, entry)?;
    }
    Ok(())
}

/// A line for each entry of each structure.
pub(crate) fn push_all_entries(
    out: &mut Vec<u8>,
    labels: &Labels,
    structures: &[ShownStructure],
) -> Result<(), AllocError>
    ensures { OnOk result (out.new.items ≡ out.old.items ++ flat_map (entries_text labels.now) structures.now) }
{
    for structure in structures {
        push_entries(out, labels, &structure.entries)?;
    }
    Ok(())
}

/// A line for a queue.
fn push_queue(out: &mut Vec<u8>, queue: &ShownQueue) -> Result<(), AllocError>
    ensures { OnOk result (out.new.items ≡ out.old.items ++ queue_text queue.now) }
{
    push_named(out, b"queue ", queue.name.as_str())?;
    push_counted(out, b" depth ", u64::from(queue.depth))?;
    push_text(out, b"\n")
}

/// A line for each.
pub(crate) fn push_queues(out: &mut Vec<u8>, queues: &[ShownQueue]) -> Result<(), AllocError>
    ensures { OnOk result (out.new.items ≡ out.old.items ++ flat_map queue_text queues.now) }
{
    for queue in queues {
        push_queue(out, queue)?;
    }
    Ok(())
}
