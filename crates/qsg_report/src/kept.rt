//! What members keep, and what actors wait for.

ghost use Rattle.std.specs.Prelude.{◌≡◌, ◌++◌, codes, OnOk};
ghost use Rattle.std.specs.List.{flat_map};
ghost use Rattle.qsg_report.specs.Kept.{dataset_text, log_text, up_text, member_line, wait_text, end_text};

use crate::shown::{ShownDataSet, ShownMember, ShownWait};
use crate::words::{push_named, push_number_or_dash, push_of};
use qsg_answers::{
    Labels, push_actor, push_cause, push_counted, push_member, push_structure, push_text,
};
use std::alloc::AllocError;

/// A line for a data set.
#[tactic(auto, unfolding(crate::specs::Kept::dataset_text))]
fn push_dataset(out: &mut Vec<u8>, labels: &Labels, set: &ShownDataSet) -> Result<(), AllocError>
    ensures { OnOk result (out.new.items ≡ out.old.items ++ dataset_text labels.now set.now) }
{
    push_text(out, b"dataset ")?;
    push_member(out, labels, set.member)?;
    push_text(out, b" ")?;
    push_structure(out, labels, set.structure)?;
    push_text(out, b" used ")?;
    push_number_or_dash(out, set.used)?;
    push_counted(out, b" of ", u64::from(set.blocks))?;
    push_text(out, b"\n")
}

/// A line for each.
pub(crate) fn push_datasets(
    out: &mut Vec<u8>,
    labels: &Labels,
    sets: &[ShownDataSet],
) -> Result<(), AllocError>
    ensures { OnOk result (out.new.items ≡ out.old.items ++ flat_map (dataset_text labels.now) sets.now) }
{
    for set in sets {
        push_dataset(out, labels, set)?;
    }
    Ok(())
}

/// A line for a member's log.
fn push_log(out: &mut Vec<u8>, member: &ShownMember) -> Result<(), AllocError>
    ensures { OnOk result (out.new.items ≡ out.old.items ++ log_text member.now) }
{
    push_named(out, b"log ", member.name.as_str())?;
    push_text(out, b" pages ")?;
    push_of(out, member.pages, member.size)
}

/// A line for each.
pub(crate) fn push_logs(out: &mut Vec<u8>, members: &[ShownMember]) -> Result<(), AllocError>
    ensures { OnOk result (out.new.items ≡ out.old.items ++ flat_map log_text members.now) }
{
    for member in members {
        push_log(out, member)?;
    }
    Ok(())
}

fn up_word(up: bool) -> &'static [u8]
    ensures { result.now ≡ up_text up }
{
    if up { b" up " } else { b" down " }
}

/// A line for a member.
fn push_member_line(out: &mut Vec<u8>, member: &ShownMember) -> Result<(), AllocError>
    ensures { OnOk result (out.new.items ≡ out.old.items ++ member_line member.now) }
{
    push_named(out, b"member ", member.name.as_str())?;
    push_counted(out, up_word(member.up), u64::from(member.last.number))?;
    push_text(out, b"\n")
}

/// A line for each.
pub(crate) fn push_members(out: &mut Vec<u8>, members: &[ShownMember]) -> Result<(), AllocError>
    ensures { OnOk result (out.new.items ≡ out.old.items ++ flat_map member_line members.now) }
{
    for member in members {
        push_member_line(out, member)?;
    }
    Ok(())
}

/// A line for an actor that waits.
#[tactic(auto, unfolding(crate::specs::Kept::wait_text))]
fn push_wait(out: &mut Vec<u8>, labels: &Labels, wait: &ShownWait) -> Result<(), AllocError>
    ensures { OnOk result (out.new.items ≡ out.old.items ++ wait_text labels.now wait.now) }
{
    push_text(out, b"waits ")?;
    push_actor(out, labels, wait.actor)?;
    push_text(out, b" ")?;
    push_cause(out, labels, wait.cause)?;
    push_text(out, b"\n")
}

/// A line for each.
fn push_waits(out: &mut Vec<u8>, labels: &Labels, waits: &[ShownWait]) -> Result<(), AllocError>
    ensures { OnOk result (out.new.items ≡ out.old.items ++ flat_map (wait_text labels.now) waits.now) }
{
    for wait in waits {
        push_wait(out, labels, wait)?;
    }
    Ok(())
}

/// How the run ended.
pub(crate) fn push_end(
    out: &mut Vec<u8>,
    labels: &Labels,
    waits: &[ShownWait],
) -> Result<(), AllocError>
    ensures { OnOk result (out.new.items ≡ out.old.items ++ end_text labels.now waits.now) }
{
    if waits.is_empty() {
        return push_text(out, b"finished\n");
    }
    push_waits(out, labels, waits)?;
    push_text(out, b"stuck\n")
}
