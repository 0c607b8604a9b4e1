//! The pages of a unit's run.

ghost use Rattle.std.specs.Prelude.{◌≡◌, ◌↔◌, ◌<◌, ◌^◌, ◌++◌, [], ◌∷◌, length, IfOk, OnOk, IsSome, IfSome, if◌then◌else◌};
ghost use Rattle.qsg_logrec.specs.Spelling.{record_text, unit_text, IsUnit, IsRecord};
ghost use Rattle.qsg_logrec.specs.declared.record.LogRecord.TheVariants as LogRecord;
ghost use Rattle.qsg_logread.specs.Records.{AreRecords, texts_of};
ghost use Rattle.qsg_group.specs.Observers.{logged_ops};
ghost use Rattle.qsg_unitlog.specs.Units.{op_record, op_records, run_records, run_pages};
ghost use Rattle.qsg_unitlog.specs.Sets.{uses, structures_of};

use qsg_group::Claim;
use qsg_logrec::{LogRecord, Spellings, StructSet, cut, encode};
use qsg_model::Op;
use qsg_msg::{Message, push_message};
use qsg_num::{Bytes, Pages, StructNo, UnitName};
use std::alloc::{AllocError, Global};

/// What the types of its fields keep.
fn unit_ranges(unit: UnitName)
    ensures { IsUnit unit }
{
    let _incarnation = unit.incarnation.number;
    let _seq = unit.seq;
}

fn push_unit(out: &mut Vec<u8>, unit: UnitName) -> Result<(), AllocError>
    ensures text { OnOk result (out.new.items ≡ out.old.items ++ unit_text unit) }
    ensures ranges { IsUnit unit }
{
    unit_ranges(unit);
    out.push(unit.member.get())?;
    out.extend_from_slice(&unit.incarnation.number.to_be_bytes())?;
    out.extend_from_slice(&unit.seq.to_be_bytes())?;
    Ok(())
}

/// The spelling of the record of a put. The message is lent, so that it is copied once.
#[tactic(auto, unfolding(qsg_logrec::specs::Spelling::record_text))]
fn put_text(alloc: Global, unit: UnitName, message: &Message) -> Result<Bytes, AllocError>
    ensures text { IfOk result (λ v. v ≡ record_text (LogRecord.Put unit message.now)) }
    ensures ranges { OnOk result (IsRecord (LogRecord.Put unit message.now)) }
{
    let mut out = Vec::new(alloc);
    out.push(1)?;
    push_unit(&mut out, unit)?;
    Ok(Bytes::from_vec(push_message(out, message)?))
}

/// The spelling of the record of an operation.
fn op_text(alloc: Global, unit: UnitName, op: &(StructNo, Op)) -> Result<Bytes, AllocError>
    ensures text { IfOk result (λ v. v ≡ record_text (op_record unit op.now)) }
    ensures ranges { OnOk result (IsRecord (op_record unit op.now)) }
{
    match &op.1 {
        Op::Put(message) => put_text(alloc, unit, message),
        Op::Got(id) => encode(alloc, &LogRecord::Got(unit, *id, op.0)),
    }
}

/// The spellings of the records of those operations that are persistent.
fn op_texts(
    alloc: Global,
    unit: UnitName,
    ops: &[(StructNo, Op)],
    claims: &[Claim],
) -> Result<Vec<Bytes>, AllocError>
    ensures texts { IfOk result (λ texts. texts.items ≡ texts_of (op_records unit (logged_ops ops.now claims.now))) }
    ensures ranges { OnOk result (AreRecords (op_records unit (logged_ops ops.now claims.now))) }
{
    let mut texts = Vec::new(alloc);
    for (i, op) in ops.iter().enumerate() {
        if i < claims.len() && claims[i].persistent {
            texts.push(op_text(alloc, unit, op)?)?;
        }
    }
    Ok(texts)
}

/// The spelling of the record of a commit.
fn commit_text(alloc: Global, unit: UnitName, structures: StructSet) -> Result<Bytes, AllocError>
    ensures text { IfOk result (λ v. v ≡ record_text (LogRecord.CommitIn unit structures)) }
    ensures ranges { OnOk result (IsRecord (LogRecord.CommitIn unit structures)) }
{
    encode(alloc, &LogRecord::CommitIn(unit, structures))
}

/// The spellings of the records of a unit's run.
fn run_texts(
    alloc: Global,
    unit: UnitName,
    ops: &[(StructNo, Op)],
    claims: &[Claim],
    structures: StructSet,
) -> Result<Vec<Bytes>, AllocError>
    ensures texts { IfOk result (λ texts. texts.items ≡ texts_of (run_records unit (logged_ops ops.now claims.now) structures)) }
    ensures ranges { OnOk result (AreRecords (run_records unit (logged_ops ops.now claims.now) structures)) }
{
    let mut texts = op_texts(alloc, unit, ops, claims)?;
    texts.push(commit_text(alloc, unit, structures)?)?;
    Ok(texts)
}

/// The pages of a unit's run: the records of its persistent operations, in order, and its commit in the structures of
/// all its operations, cut into pages. `claims` are those of the operations, one for each. It takes time by the bytes
/// of the records.
pub fn cut_unit(
    alloc: Global,
    unit: UnitName,
    ops: &[(StructNo, Op)],
    claims: &[Claim],
    structures: StructSet,
) -> Result<Pages, AllocError>
    ensures pages { IfOk result (λ pages. pages ≡ run_pages unit (logged_ops ops.now claims.now) structures) }
    ensures some { IfOk result (λ pages. 0 < length pages) }
    ensures ranges { OnOk result (AreRecords (run_records unit (logged_ops ops.now claims.now) structures)) }
{
    let texts = run_texts(alloc, unit, ops, claims, structures)?;
    cut(alloc, &Spellings::from_vec(texts))
}

/// Whether one of the operations is on a structure.
fn uses(ops: &[(StructNo, Op)], structure: StructNo) -> bool
    ensures { result ≡ uses ops.now structure }
{
    ops.iter().any(|op| op.0.get() == structure.get())
}

/// What a structure's bit adds to the byte of a set.
fn worth(is_used: bool, bit: u8) -> u8
    ensures { result ≡ (if is_used then bit else 0) }
{
    if is_used { bit } else { 0 }
}

/// The set of the structures of operations. None exactly where there is no operation.
pub fn structures_of(ops: &[(StructNo, Op)]) -> Option<StructSet>
    ensures some { IsSome result ↔ (0 < length ops.now) }
    ensures set { IfSome result (λ set. set ≡ structures_of ops.now) }
{
    let first = worth(uses(ops, StructNo::One), 1) + worth(uses(ops, StructNo::Two), 2);
    let last = worth(uses(ops, StructNo::Three), 4) + worth(uses(ops, StructNo::Four), 8);
    StructSet::new(first + last)
}
