//! How requests ended, in lines that are numbered.

ghost use Rattle.std.specs.Prelude.{◌≡◌, ◌++◌, OnOk};
ghost use Rattle.qsg_answers.specs.Answers.{verb_text, placed_text, short_text, depth_text, need_text, place_at, why_text, reason_text, kind_text, identifiers_text, message_text, reply_text, answer_text, answers_from};

use crate::labels::{Labels, push_incarnation, push_member, push_unit};
use crate::texts::{
    push_body, push_counted, push_flag, push_id, push_identifier, push_number, push_text,
};
use qsg_msg::Message;
use qsg_num::{LogWhy, PageNo, Priority};
use qsg_offload::Placed;
use qsg_requests::{Answer, Reason, Reply, Short, Verb};
use std::alloc::AllocError;

/// The first word of a directive; none for what a system task does.
fn verb_word(verb: Verb) -> &'static [u8]
    ensures { result.now ≡ verb_text verb }
{
    match verb {
        Verb::Put => b" PUT",
        Verb::Get => b" GET",
        Verb::Commit => b" COMMIT",
        Verb::Backout => b" BACKOUT",
        Verb::Wait => b" WAIT",
        Verb::Backup => b" BACKUP",
        Verb::Recover => b" RECOVER",
        Verb::Reset => b" RESET",
        Verb::Display => b" DISPLAY",
        Verb::Crash => b" CRASH",
        Verb::Start => b" START",
        Verb::Stop => b" STOP",
        Verb::Lose => b" LOSE",
        Verb::System => b"",
    }
}

/// Where a body went.
fn placed_word(placed: Placed) -> &'static [u8]
    ensures { result.now ≡ placed_text placed }
{
    match placed {
        Placed::Inside => b" inside",
        Placed::Always => b" always",
        Placed::Rule1 => b" rule1",
        Placed::Rule2 => b" rule2",
        Placed::Rule3 => b" rule3",
    }
}

/// What is short.
fn short_word(place: Short) -> &'static [u8]
    ensures { result.now ≡ short_text place }
{
    match place {
        Short::Dataset => b" dataset",
        Short::Structure => b" structure",
    }
}

/// The messages that a queue has.
fn push_depth(out: &mut Vec<u8>, depth: u32) -> Result<(), AllocError>
    ensures { OnOk result (out.new.items ≡ out.old.items ++ depth_text depth) }
{
    push_counted(out, b" depth ", u64::from(depth))
}

/// What is needed, and what is free.
fn push_need(out: &mut Vec<u8>, need: u32, free: u32) -> Result<(), AllocError>
    ensures { OnOk result (out.new.items ≡ out.old.items ++ need_text need free) }
{
    push_counted(out, b" need ", u64::from(need))?;
    push_counted(out, b" free ", u64::from(free))
}

/// The place of a fault: a page, and a byte of it or of a record that ends in it.
fn push_place(out: &mut Vec<u8>, page: PageNo, at: u32) -> Result<(), AllocError>
    ensures { OnOk result (out.new.items ≡ out.old.items ++ place_at page at) }
{
    push_number(out, u64::from(page.number))?;
    push_counted(out, b" at ", u64::from(at))
}

/// Why a log can't be read on.
fn push_why(out: &mut Vec<u8>, why: LogWhy) -> Result<(), AllocError>
    ensures { OnOk result (out.new.items ≡ out.old.items ++ why_text why) }
{
    match why {
        LogWhy::Device => push_text(out, b" device"),
        LogWhy::BadPage { page, at } => {
            push_text(out, b" page ")?;
            push_place(out, page, at)
        }
        LogWhy::BadRecord { page, at } => {
            push_text(out, b" record ")?;
            push_place(out, page, at)
        }
    }
}

/// A reason: its code, or its word where it has none.
fn push_reason(out: &mut Vec<u8>, labels: &Labels, reason: Reason) -> Result<(), AllocError>
    ensures { OnOk result (out.new.items ≡ out.old.items ++ reason_text labels.now reason) }
{
    match reason {
        Reason::ConnectionBroken => push_text(out, b" 2009"),
        Reason::GetInhibited => push_text(out, b" 2016"),
        Reason::SyncpointLimit => push_text(out, b" 2024"),
        Reason::BodyTooLong => push_text(out, b" 2030"),
        Reason::NoMessage => push_text(out, b" 2033"),
        Reason::PersistentNotAllowed => push_text(out, b" 2048"),
        Reason::PutInhibited => push_text(out, b" 2051"),
        Reason::QueueFull { depth } => {
            push_text(out, b" 2053")?;
            push_depth(out, depth)
        }
        Reason::UnknownObject => push_text(out, b" 2085"),
        Reason::StorageFull { place, need, free } => {
            push_text(out, b" 2192")?;
            push_text(out, short_word(place))?;
            push_need(out, need, free)
        }
        Reason::StructureFailed => push_text(out, b" 2373"),
        Reason::NoLog { need, free } => {
            push_text(out, b" NOLOG")?;
            push_need(out, need, free)
        }
        Reason::DataSetFault => push_text(out, b" DSFAULT"),
        Reason::Down => push_text(out, b" DOWN"),
        Reason::Up => push_text(out, b" UP"),
        Reason::LogFault { member, why } => {
            push_text(out, b" LOGFAULT ")?;
            push_member(out, labels, member)?;
            push_why(out, why)
        }
        Reason::GaveUp {
            member,
            incarnation,
            why,
        } => {
            push_text(out, b" GAVEUP ")?;
            push_incarnation(out, labels, member, incarnation)?;
            push_why(out, why)
        }
        Reason::NotYet => push_text(out, b" NOTYET"),
    }
}

/// The kind of a message: its priority, and whether it is persistent.
#[tactic(auto, unfolding(crate::specs::Answers::kind_text))]
pub fn push_kind(out: &mut Vec<u8>, priority: Priority, persistent: bool) -> Result<(), AllocError>
    ensures { OnOk result (out.new.items ≡ out.old.items ++ kind_text priority persistent) }
{
    push_counted(out, b" pri ", u64::from(priority.get()))?;
    push_text(out, b" pers ")?;
    push_flag(out, persistent)
}

/// The identifiers of a message.
#[tactic(auto, unfolding(crate::specs::Answers::identifiers_text))]
fn push_identifiers(out: &mut Vec<u8>, message: &Message) -> Result<(), AllocError>
    ensures { OnOk result (out.new.items ≡ out.old.items ++ identifiers_text message.now) }
{
    push_text(out, b" msgid ")?;
    push_identifier(out, &message.msg_id)?;
    push_text(out, b" correlid ")?;
    push_identifier(out, &message.correl_id)
}

/// A message: its id, its kind, its identifiers and its body.
#[tactic(auto, unfolding(crate::specs::Answers::message_text))]
fn push_message(out: &mut Vec<u8>, message: &Message) -> Result<(), AllocError>
    ensures { OnOk result (out.new.items ≡ out.old.items ++ message_text message.now) }
{
    push_id(out, message.id)?;
    push_kind(out, message.priority, message.persistent)?;
    push_identifiers(out, message)?;
    push_text(out, b" body ")?;
    push_body(out, message.body.as_slice())
}

/// How a request ended.
fn push_reply(out: &mut Vec<u8>, labels: &Labels, reply: &Reply) -> Result<(), AllocError>
    ensures { OnOk result (out.new.items ≡ out.old.items ++ reply_text labels.now reply.now) }
{
    match reply {
        Reply::PutOk { id, placed } => {
            push_text(out, b" OK ")?;
            push_id(out, *id)?;
            push_text(out, placed_word(*placed))
        }
        Reply::Unit { unit: None, count } => push_counted(out, b" OK - ", u64::from(*count)),
        Reply::Unit {
            unit: Some(unit),
            count,
        } => {
            push_text(out, b" OK ")?;
            push_unit(out, labels, *unit)?;
            push_counted(out, b" ", u64::from(*count))
        }
        Reply::Got(message) => {
            push_text(out, b" OK ")?;
            push_message(out, message)
        }
        Reply::Started { incarnation } => {
            push_counted(out, b" OK ", u64::from(incarnation.number))
        }
        Reply::Resolved {
            member,
            incarnation,
            settled,
        } => {
            push_text(out, b" RESOLVED ")?;
            push_incarnation(out, labels, *member, *incarnation)?;
            push_counted(out, b" ", u64::from(*settled))
        }
        Reply::Done => push_text(out, b" OK"),
        Reply::Refused(reason) => push_reason(out, labels, *reason),
    }
}

/// A line: the answer's number, its directive and how it ended.
#[tactic(auto, unfolding(crate::specs::Answers::answer_text))]
pub fn push_answer(
    out: &mut Vec<u8>,
    labels: &Labels,
    number: u64,
    answer: &Answer,
) -> Result<(), AllocError>
    ensures { OnOk result (out.new.items ≡ out.old.items ++ answer_text labels.now number answer.now) }
{
    push_number(out, number)?;
    push_text(out, verb_word(answer.verb))?;
    push_reply(out, labels, &answer.reply)?;
    push_text(out, b"\n")
}

/// A line for each answer, numbered from 1.
pub fn push_answers(
    out: &mut Vec<u8>,
    labels: &Labels,
    answers: &[Answer],
) -> Result<(), AllocError>
    ensures { OnOk result (out.new.items ≡ out.old.items ++ answers_from labels.now 1 answers.now) }
{
    for (at, answer) in answers.iter().enumerate() {
        push_answer(out, labels, at as u64 + 1, answer)?;
    }
    Ok(())
}
