//! Reading a record.

ghost use Rattle.std.specs.Prelude.{◌≡◌, ◌<◌, ◌^◌, ℕ, IfOk, IsErrOf};
ghost use Rattle.qsg_num.specs.Seats.{member_at};
ghost use Rattle.qsg_msg.specs.Prefix.{IsFaultPlace};
ghost use Rattle.qsg_msg.specs.Reading.{Gives, choice_at};
ghost use Rattle.qsg_logrec.specs.declared.record.LogRecord.{LogRecord};
ghost use Rattle.qsg_logrec.specs.Spelling.{record_text, IsRecord, IsSpelling};
ghost use Rattle.qsg_logrec.specs.Decoding.{ReadsAs};
ghost use Rattle.qsg_logrec.specs.Reading.{unit_at, mark_at, page_no_at, pages_at, set_at, put_at, got_at, commit_at, start_at, entry_at, end_at, commit_in_at, record_at};

use crate::fault::RecordFault;
use crate::record::{LogMark, LogRecord};
use crate::sets::StructSet;
use qsg_msg::fields::{read_structure, read_u32, read_u64};
use qsg_msg::{Stop, read_message};
use qsg_num::{EntryId, Incarnation, Member, PageNo, UnitName};
use std::alloc::Global;

fn member_of(bytes: &[u8]) -> Result<(Member, &[u8]), Stop>
    ensures { Gives (λ x. (x.0, x.1.now)) result (choice_at member_at bytes.now) }
{
    let [byte, rest @ ..] = bytes else {
        return Err(Stop::Bad(0));
    };
    match Member::new(*byte) {
        Some(member) => Ok((member, rest)),
        None => Err(Stop::Bad(bytes.len())),
    }
}

#[tactic(auto, unfolding(crate::specs::Reading::unit_at))]
fn unit_of(bytes: &[u8]) -> Result<(UnitName, &[u8]), Stop>
    ensures { Gives (λ x. (x.0, x.1.now)) result (unit_at bytes.now) }
{
    let (member, rest) = member_of(bytes)?;
    let (incarnation, rest) = read_u32(rest)?;
    let (seq, rest) = read_u32(rest)?;
    let unit = UnitName {
        member,
        incarnation: Incarnation {
            number: incarnation,
        },
        seq,
    };
    Ok((unit, rest))
}

#[tactic(auto, unfolding(crate::specs::Reading::mark_at, crate::specs::Reading::put_mark_at, crate::specs::Reading::got_mark_at))]
fn mark_of(bytes: &[u8]) -> Result<(LogMark, &[u8]), Stop>
    ensures { Gives (λ x. (x.0, x.1.now)) result (mark_at bytes.now) }
{
    match bytes {
        [] => Err(Stop::Bad(0)),
        [0, rest @ ..] => Ok((LogMark::Visible, rest)),
        [1, rest @ ..] => {
            let (unit, rest) = unit_of(rest)?;
            Ok((LogMark::PutBy(unit), rest))
        }
        [2, rest @ ..] => {
            let (unit, rest) = unit_of(rest)?;
            Ok((LogMark::GotBy(unit), rest))
        }
        [_, ..] => Err(Stop::Bad(bytes.len())),
    }
}

#[tactic(auto, unfolding(crate::specs::Reading::page_no_at))]
fn page_no_of(bytes: &[u8]) -> Result<(PageNo, &[u8]), Stop>
    ensures { Gives (λ x. (x.0, x.1.now)) result (page_no_at bytes.now) }
{
    let (number, rest) = read_u32(bytes)?;
    Ok((PageNo { number }, rest))
}

fn low_of(bytes: &[u8]) -> Result<([PageNo; 8], &[u8]), Stop>
    ensures { Gives (λ x. (x.0, x.1.now)) result (pages_at 8 bytes.now) }
{
    let (a, rest) = page_no_of(bytes)?;
    let (b, rest) = page_no_of(rest)?;
    let (c, rest) = page_no_of(rest)?;
    let (d, rest) = page_no_of(rest)?;
    let (e, rest) = page_no_of(rest)?;
    let (f, rest) = page_no_of(rest)?;
    let (g, rest) = page_no_of(rest)?;
    let (h, rest) = page_no_of(rest)?;
    Ok(([a, b, c, d, e, f, g, h], rest))
}

fn set_of(bytes: &[u8]) -> Result<(StructSet, &[u8]), Stop>
    ensures { Gives (λ x. (x.0, x.1.now)) result (choice_at set_at bytes.now) }
{
    let [byte, rest @ ..] = bytes else {
        return Err(Stop::Bad(0));
    };
    match StructSet::new(*byte) {
        Some(set) => Ok((set, rest)),
        None => Err(Stop::Bad(bytes.len())),
    }
}

#[tactic(auto, unfolding(crate::specs::Reading::put_at))]
fn put_of(alloc: Global, bytes: &[u8]) -> Result<(LogRecord, &[u8]), Stop>
    ensures { Gives (λ x. (x.0, x.1.now)) result (put_at bytes.now) }
{
    let (unit, rest) = unit_of(bytes)?;
    let (message, rest) = read_message(alloc, rest)?;
    Ok((LogRecord::Put(unit, message), rest))
}

#[tactic(auto, unfolding(crate::specs::Reading::got_at))]
fn got_of(bytes: &[u8]) -> Result<(LogRecord, &[u8]), Stop>
    ensures { Gives (λ x. (x.0, x.1.now)) result (got_at bytes.now) }
{
    let (unit, rest) = unit_of(bytes)?;
    let (id, rest) = read_u64(rest)?;
    let (structure, rest) = read_structure(rest)?;
    Ok((
        LogRecord::Got(unit, EntryId { number: id }, structure),
        rest,
    ))
}

#[tactic(auto, unfolding(crate::specs::Reading::commit_at))]
fn commit_of(bytes: &[u8]) -> Result<(LogRecord, &[u8]), Stop>
    ensures { Gives (λ x. (x.0, x.1.now)) result (commit_at bytes.now) }
{
    let (unit, rest) = unit_of(bytes)?;
    Ok((LogRecord::Commit(unit), rest))
}

#[tactic(auto, unfolding(crate::specs::Reading::start_at))]
fn start_of(bytes: &[u8]) -> Result<(LogRecord, &[u8]), Stop>
    ensures { Gives (λ x. (x.0, x.1.now)) result (start_at bytes.now) }
{
    let (backup, rest) = unit_of(bytes)?;
    let (structure, rest) = read_structure(rest)?;
    let (top, rest) = read_u64(rest)?;
    let (low, rest) = low_of(rest)?;
    let record = LogRecord::BackupStart {
        backup,
        structure,
        top: EntryId { number: top },
        low,
    };
    Ok((record, rest))
}

#[tactic(auto, unfolding(crate::specs::Reading::entry_at))]
fn entry_of(alloc: Global, bytes: &[u8]) -> Result<(LogRecord, &[u8]), Stop>
    ensures { Gives (λ x. (x.0, x.1.now)) result (entry_at bytes.now) }
{
    let (backup, rest) = unit_of(bytes)?;
    let (mark, rest) = mark_of(rest)?;
    let (message, rest) = read_message(alloc, rest)?;
    Ok((LogRecord::BackupEntry(backup, mark, message), rest))
}

#[tactic(auto, unfolding(crate::specs::Reading::end_at))]
fn end_of(bytes: &[u8]) -> Result<(LogRecord, &[u8]), Stop>
    ensures { Gives (λ x. (x.0, x.1.now)) result (end_at bytes.now) }
{
    let (backup, rest) = unit_of(bytes)?;
    let (structure, rest) = read_structure(rest)?;
    let (count, rest) = read_u32(rest)?;
    let record = LogRecord::BackupEnd {
        backup,
        structure,
        count,
    };
    Ok((record, rest))
}

#[tactic(auto, unfolding(crate::specs::Reading::commit_in_at))]
fn commit_in_of(bytes: &[u8]) -> Result<(LogRecord, &[u8]), Stop>
    ensures { Gives (λ x. (x.0, x.1.now)) result (commit_in_at bytes.now) }
{
    let (unit, rest) = unit_of(bytes)?;
    let (set, rest) = set_of(rest)?;
    Ok((LogRecord::CommitIn(unit, set), rest))
}

/// The record that begins the bytes, and the bytes behind it.
#[tactic(auto, unfolding(crate::specs::Reading::record_at))]
fn record_of(alloc: Global, bytes: &[u8]) -> Result<(LogRecord, &[u8]), Stop>
    ensures { Gives (λ x. (x.0, x.1.now)) result (record_at bytes.now) }
{
    match bytes {
        [] => Err(Stop::Bad(0)),
        [1, rest @ ..] => put_of(alloc, rest),
        [2, rest @ ..] => got_of(rest),
        [3, rest @ ..] => commit_of(rest),
        [4, rest @ ..] => start_of(rest),
        [5, rest @ ..] => entry_of(alloc, rest),
        [6, rest @ ..] => end_of(rest),
        [7, rest @ ..] => commit_in_of(rest),
        [_, ..] => Err(Stop::Bad(bytes.len())),
    }
}

/// The record whose spelling the whole input is.
pub fn decode(alloc: Global, input: &[u8]) -> Result<LogRecord, RecordFault>
    // What is read is spelled so.
    ensures found { IfOk result (λ r. IsRecord r × (input.now ≡ record_text r)) }
    // What is spelled so is read, unless memory runs out.
    ensures reads_back { (r : LogRecord) → IsRecord r → input.now ≡ record_text r → ReadsAs r result }
    // It is bad exactly where the input is no record's spelling.
    ensures bad { (at : ℕ) → IsErrOf result (RecordFault.BadRecord at) → IsSpelling input.now → ⊥ }
    // The place of the fault.
    ensures place { (at : ℕ) → IsErrOf result (RecordFault.BadRecord at) → IsFaultPlace IsSpelling input.now at }
    // It fits in 32 bits.
    ensures small { (at : ℕ) → IsErrOf result (RecordFault.BadRecord at) → at < 2 ^ 32 }
{
    match record_of(alloc, input) {
        Ok((record, rest)) => {
            if !rest.is_empty() {
                return Err(RecordFault::BadRecord {
                    at: input.len() - rest.len(),
                });
            }
            Ok(record)
        }
        Err(Stop::NoMemory) => Err(RecordFault::NoMemory),
        Err(Stop::Bad(left)) => Err(RecordFault::BadRecord {
            at: input.len() - left,
        }),
    }
}
