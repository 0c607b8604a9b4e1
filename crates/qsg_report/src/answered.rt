//! What actors answered, and what happened.

ghost use Rattle.std.specs.Prelude.{◌≡◌, ◌++◌, codes, OnOk};
ghost use Rattle.std.specs.List.{flat_map};
ghost use Rattle.qsg_report.specs.Answered.{heading_text, transcript_text, transcripts_text, op_text, ops_text, item_text};

use qsg_answers::{
    Labels, push_actor, push_answers, push_id, push_structure, push_text, push_unit,
};
use qsg_model::{Item, Op};
use qsg_num::{Actor, StructNo};
use qsg_requests::{Answer, Transcripts};
use std::alloc::AllocError;

/// The line above an actor's answers.
fn push_heading(out: &mut Vec<u8>, labels: &Labels, actor: Actor) -> Result<(), AllocError>
    ensures { OnOk result (out.new.items ≡ out.old.items ++ heading_text labels.now actor) }
{
    match actor {
        Actor::Task(..) => {
            push_text(out, b"task ")?;
            push_actor(out, labels, actor)?;
            push_text(out, b"\n")
        }
        Actor::Operator => push_text(out, b"operator\n"),
    }
}

/// An actor and its answers; nothing where it has none.
fn push_transcript(
    out: &mut Vec<u8>,
    labels: &Labels,
    actor: Actor,
    answers: &[Answer],
) -> Result<(), AllocError>
    ensures { OnOk result (out.new.items ≡ out.old.items ++ transcript_text labels.now actor answers.now) }
{
    if answers.is_empty() {
        return Ok(());
    }
    push_heading(out, labels, actor)?;
    push_answers(out, labels, answers)
}

/// The answers of these actors.
pub(crate) fn push_transcripts<T: Transcripts>(
    out: &mut Vec<u8>,
    labels: &Labels,
    transcripts: &T,
    actors: &[Actor],
) -> Result<(), AllocError>
    ensures { OnOk result (out.new.items ≡ out.old.items ++ transcripts_text labels.now (T.told transcripts.now) actors.now) }
{
    for actor in actors {
        push_transcript(out, labels, *actor, transcripts.transcript(*actor))?;
    }
    Ok(())
}

fn push_op(out: &mut Vec<u8>, op: &Op) -> Result<(), AllocError>
    ensures { OnOk result (out.new.items ≡ out.old.items ++ op_text op.now) }
{
    match op {
        Op::Put(message) => {
            push_text(out, b" put ")?;
            push_id(out, message.id)
        }
        Op::Got(id) => {
            push_text(out, b" got ")?;
            push_id(out, *id)
        }
    }
}

fn push_ops(out: &mut Vec<u8>, ops: &[(StructNo, Op)]) -> Result<(), AllocError>
    ensures { OnOk result (out.new.items ≡ out.old.items ++ ops_text ops.now) }
{
    for work in ops {
        push_op(out, &work.1)?;
    }
    Ok(())
}

/// A line for an item of the history.
fn push_item(out: &mut Vec<u8>, labels: &Labels, item: &Item) -> Result<(), AllocError>
    ensures { OnOk result (out.new.items ≡ out.old.items ++ item_text labels.now item.now) }
{
    match item {
        Item::Unit(unit, ops) => {
            push_text(out, b"unit ")?;
            push_unit(out, labels, *unit)?;
            push_ops(out, ops.as_slice())?;
        }
        Item::Lost(structure) => {
            push_text(out, b"lost ")?;
            push_structure(out, labels, *structure)?;
        }
        Item::Purged(structure) => {
            push_text(out, b"purged ")?;
            push_structure(out, labels, *structure)?;
        }
    }
    push_text(out, b"\n")
}

/// A line for each item of the history.
pub(crate) fn push_history(
    out: &mut Vec<u8>,
    labels: &Labels,
    history: &[Item],
) -> Result<(), AllocError>
    ensures { OnOk result (out.new.items ≡ out.old.items ++ flat_map (item_text labels.now) history.now) }
{
    for item in history {
        push_item(out, labels, item)?;
    }
    Ok(())
}
