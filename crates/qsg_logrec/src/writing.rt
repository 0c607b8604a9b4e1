//! Writing a record.

ghost use Rattle.std.specs.Prelude.{◌≡◌, ◌++◌, ◌<◌, ◌≤◌, ◌^◌, ◌∷◌, length, IfOk, OnOk};
ghost use Rattle.qsg_logrec.specs.Spelling.{record_text, unit_text, mark_text, low_text, IsUnit, IsMark, ArePages, IsRecord};
ghost use Rattle.std.specs.Int.{w64, to_be_bytes};
ghost use Rattle.qsg_num.specs.Seats.{structure_number};
ghost use Rattle.qsg_msg.specs.Spelling.{IsMessage};
ghost use Rattle.qsg_logrec.specs.Sets.{IsSet};
ghost use Rattle.qsg_logrec.specs.declared.record.LogRecord.TheVariants as LogRecord;

use crate::record::{LogMark, LogRecord};
use crate::sets::StructSet;
use qsg_msg::{Message, push_message};
use qsg_num::{Bytes, EntryId, PageNo, StructNo, UnitName};
use std::alloc::{AllocError, Global};

/// What the types of its fields keep.
fn unit_ranges(unit: UnitName)
    ensures { IsUnit unit }
{
    let _incarnation = unit.incarnation.number;
    let _seq = unit.seq;
}

fn push_unit(out: &mut Vec<u8>, unit: UnitName) -> Result<(), AllocError>
    ensures text { OnOk result (out.new.items ≡ out.old.items ++ unit_text unit) }
    ensures ranges { IsUnit unit }
{
    unit_ranges(unit);
    out.push(unit.member.get())?;
    out.extend_from_slice(&unit.incarnation.number.to_be_bytes())?;
    out.extend_from_slice(&unit.seq.to_be_bytes())?;
    Ok(())
}

fn push_mark(out: &mut Vec<u8>, mark: LogMark) -> Result<(), AllocError>
    ensures text { OnOk result (out.new.items ≡ out.old.items ++ mark_text mark) }
    ensures ranges { OnOk result (IsMark mark) }
{
    match mark {
        LogMark::Visible => out.push(0)?,
        LogMark::PutBy(unit) => {
            out.push(1)?;
            push_unit(out, unit)?;
        }
        LogMark::GotBy(unit) => {
            out.push(2)?;
            push_unit(out, unit)?;
        }
    }
    Ok(())
}

fn push_low(out: &mut Vec<u8>, low: &[PageNo]) -> Result<(), AllocError>
    ensures text { OnOk result (out.new.items ≡ out.old.items ++ low_text low.now) }
    ensures ranges { OnOk result (ArePages low.now) }
{
    for page in low {
        out.extend_from_slice(&page.number.to_be_bytes())?;
    }
    Ok(())
}

#[tactic(auto, unfolding(crate::specs::Spelling::record_text))]
fn push_put(front: Vec<u8>, unit: UnitName, message: &Message) -> Result<Vec<u8>, AllocError>
    ensures text { IfOk result (λ v. v.items ≡ front.items ++ record_text (LogRecord.Put unit message.now)) }
    ensures ranges { OnOk result (IsUnit unit × IsMessage message.now) }
{
    let mut out = front;
    out.push(1)?;
    push_unit(&mut out, unit)?;
    push_message(out, message)
}

#[tactic(auto, unfolding(crate::specs::Spelling::record_text))]
fn push_got(
    front: Vec<u8>,
    unit: UnitName,
    id: EntryId,
    structure: StructNo,
) -> Result<Vec<u8>, AllocError>
    ensures text { IfOk result (λ v. v.items ≡ front.items ++ record_text (LogRecord.Got unit id structure)) }
    ensures ranges { OnOk result (IsUnit unit × (id.number < 2 ^ 64)) }
{
    let mut out = front;
    out.push(2)?;
    push_unit(&mut out, unit)?;
    out.extend_from_slice(&id.number.to_be_bytes())?;
    out.push(structure.get())?;
    Ok(out)
}

#[tactic(auto, unfolding(crate::specs::Spelling::record_text))]
fn push_commit(front: Vec<u8>, unit: UnitName) -> Result<Vec<u8>, AllocError>
    ensures text { IfOk result (λ v. v.items ≡ front.items ++ record_text (LogRecord.Commit unit)) }
    ensures ranges { OnOk result (IsUnit unit) }
{
    let mut out = front;
    out.push(3)?;
    push_unit(&mut out, unit)?;
    Ok(out)
}

fn push_note(
    out: &mut Vec<u8>,
    structure: StructNo,
    top: EntryId,
    low: &[PageNo],
) -> Result<(), AllocError>
    ensures text { OnOk result (out.new.items ≡ out.old.items ++ (structure_number structure ∷ (to_be_bytes w64 top.number ++ low_text low.now))) }
    ensures ranges { OnOk result ((top.number < 2 ^ 64) × ArePages low.now) }
{
    out.push(structure.get())?;
    out.extend_from_slice(&top.number.to_be_bytes())?;
    push_low(out, low)
}

#[tactic(auto, unfolding(crate::specs::Spelling::record_text))]
fn push_start(
    front: Vec<u8>,
    backup: UnitName,
    structure: StructNo,
    top: EntryId,
    low: &[PageNo],
) -> Result<Vec<u8>, AllocError>
    ensures text { IfOk result (λ v. v.items ≡ front.items ++ record_text (LogRecord.BackupStart backup structure top low.now)) }
    ensures ranges { OnOk result (IsUnit backup × (top.number < 2 ^ 64) × ArePages low.now) }
{
    let mut out = front;
    out.push(4)?;
    push_unit(&mut out, backup)?;
    push_note(&mut out, structure, top, low)?;
    Ok(out)
}

#[tactic(auto, unfolding(crate::specs::Spelling::record_text))]
fn push_entry(
    front: Vec<u8>,
    backup: UnitName,
    mark: LogMark,
    message: &Message,
) -> Result<Vec<u8>, AllocError>
    ensures text { IfOk result (λ v. v.items ≡ front.items ++ record_text (LogRecord.BackupEntry backup mark message.now)) }
    ensures ranges { OnOk result (IsUnit backup × IsMark mark × IsMessage message.now) }
{
    let mut out = front;
    out.push(5)?;
    push_unit(&mut out, backup)?;
    push_mark(&mut out, mark)?;
    push_message(out, message)
}

#[tactic(auto, unfolding(crate::specs::Spelling::record_text))]
fn push_end(
    front: Vec<u8>,
    backup: UnitName,
    structure: StructNo,
    count: u32,
) -> Result<Vec<u8>, AllocError>
    ensures text { IfOk result (λ v. v.items ≡ front.items ++ record_text (LogRecord.BackupEnd backup structure count)) }
    ensures ranges { OnOk result (IsUnit backup × (count < 2 ^ 32)) }
{
    let mut out = front;
    out.push(6)?;
    push_unit(&mut out, backup)?;
    out.push(structure.get())?;
    out.extend_from_slice(&count.to_be_bytes())?;
    Ok(out)
}

#[tactic(auto, unfolding(crate::specs::Spelling::record_text))]
fn push_commit_in(front: Vec<u8>, unit: UnitName, set: &StructSet) -> Result<Vec<u8>, AllocError>
    ensures text { IfOk result (λ v. v.items ≡ front.items ++ record_text (LogRecord.CommitIn unit set.now)) }
    ensures ranges { OnOk result (IsUnit unit × IsSet set.now) }
{
    let mut out = front;
    out.push(7)?;
    push_unit(&mut out, unit)?;
    out.push(set.get())?;
    Ok(out)
}

/// The spelling of a record, behind the bytes that are there. These are dropped where memory runs out.
pub fn push_record(front: Vec<u8>, r: &LogRecord) -> Result<Vec<u8>, AllocError>
    ensures spelling { IfOk result (λ v. v.items ≡ front.items ++ record_text r.now) }
    ensures ranges { OnOk result (IsRecord r.now) }
{
    match r {
        LogRecord::Put(unit, message) => push_put(front, *unit, message),
        LogRecord::Got(unit, id, structure) => push_got(front, *unit, *id, *structure),
        LogRecord::Commit(unit) => push_commit(front, *unit),
        LogRecord::BackupStart {
            backup,
            structure,
            top,
            low,
        } => push_start(front, *backup, *structure, *top, low),
        LogRecord::BackupEntry(backup, mark, message) => push_entry(front, *backup, *mark, message),
        LogRecord::BackupEnd {
            backup,
            structure,
            count,
        } => push_end(front, *backup, *structure, *count),
        LogRecord::CommitIn(unit, set) => push_commit_in(front, *unit, set),
    }
}

/// The spelling of a record.
pub fn encode(alloc: Global, r: &LogRecord) -> Result<Bytes, AllocError>
    ensures spelling { IfOk result (λ v. v ≡ record_text r.now) }
    ensures ranges { OnOk result (IsRecord r.now) }
{
    Ok(Bytes::from_vec(push_record(Vec::new(alloc), r)?))
}
