//! Joining the pieces of a page.

ghost use Rattle.std.specs.Prelude.{◌≡◌, ◌≤◌, ◌++◌, [], ◌∷◌, ℕ, List, Option, None, Some, IfOk, OnOk, IsErrOf, length};
ghost use Rattle.qsg_logrec.specs.Cutting.{join_part, join_piece, joined_from};
ghost use Rattle.qsg_logread.specs.Records.{AreRecords, texts_of, IsBadText, IsFirstBad};
ghost use Rattle.qsg_logread.specs.Joining.{unfinished, IsEarly, gone_on};

use crate::fault::Stop;
use qsg_logrec::{LogRecord, Part, Piece, RecordFault, decode};
use qsg_num::Bytes;
use std::alloc::{AllocError, Global};

/// The record that is unfinished behind some pieces of a page.
#[derive(Drop)]
pub enum Rest {
    Nothing,
    /// The one that was unfinished before this page goes on by these bytes.
    Longer(Bytes),
    /// One that began on this page has these bytes so far.
    Begun(Bytes),
}

/// What the pieces of a page are joined to.
#[derive(Drop)]
pub struct Read {
    pub records: Vec<LogRecord>,
    pub rest: Rest,
}

/// Bytes with more behind them.
fn with_more(bytes: Bytes, more: &[u8]) -> Result<Bytes, AllocError>
    ensures { IfOk result (λ b. b ≡ bytes ++ more.now) }
{
    let mut bytes = bytes.into_vec();
    bytes.extend_from_slice(more)?;
    Ok(Bytes::from_vec(bytes))
}

/// The unfinished record goes on.
fn longer(rest: Rest, more: &[u8]) -> Result<Rest, AllocError>
    ensures joined { (old : Option (List ℕ)) (texts : List (List ℕ)) → IfOk result (λ r. join_part (record { records = texts; begun = unfinished old rest }) Part.Middle more.now ≡ record { records = texts; begun = unfinished old r }) }
    ensures early { IfOk result (λ r. (records : List LogRecord) → IsEarly rest records → IsEarly r records) }
{
    Ok(match rest {
        Rest::Nothing => Rest::Nothing,
        Rest::Longer(bytes) => Rest::Longer(with_more(bytes, more)?),
        Rest::Begun(bytes) => Rest::Begun(with_more(bytes, more)?),
    })
}

/// The unfinished record ends by these bytes. None where none is unfinished.
fn ended(
    alloc: Global,
    old: &Option<Bytes>,
    rest: Rest,
    last: &[u8],
) -> Result<Option<Bytes>, AllocError>
    ensures { IfOk result (λ whole. whole ≡ gone_on (unfinished old.now rest) last.now) }
{
    match rest {
        Rest::Nothing => Ok(None),
        Rest::Longer(bytes) => {
            let Some(front) = old else {
                return Ok(None);
            };
            let front = Bytes::from_slice(alloc, front.as_slice())?;
            let whole = with_more(with_more(front, bytes.as_slice())?, last)?;
            Ok(Some(whole))
        }
        Rest::Begun(bytes) => Ok(Some(with_more(bytes, last)?)),
    }
}

/// Reads a record that is whole.
fn read_record(alloc: Global, records: &mut Vec<LogRecord>, text: &[u8]) -> Result<(), Stop>
    ensures text { OnOk result (texts_of records.new.items ≡ texts_of records.old.items ++ text.now ∷ []) }
    ensures each { OnOk result (AreRecords records.old.items → AreRecords records.new.items) }
    ensures bad { (at : ℕ) → IsErrOf result (Stop.Bad at) → IsBadText text.now at }
{
    match decode(alloc, text) {
        Ok(record) => {
            records.push(record)?;
            Ok(())
        }
        Err(RecordFault::BadRecord { at }) => Err(Stop::Bad(at as u32)),
        Err(RecordFault::NoMemory) => Err(Stop::NoMemory),
    }
}

/// Joins a piece to what is unfinished, and reads the record that it ends.
fn read_piece(
    alloc: Global,
    old: &Option<Bytes>,
    records: &mut Vec<LogRecord>,
    rest: Rest,
    piece: &Piece,
) -> Result<Rest, Stop>
    ensures joined { IfOk result (λ r. join_piece (record { records = texts_of records.old.items; begun = unfinished old.now rest }) piece.now ≡ record { records = texts_of records.new.items; begun = unfinished old.now r }) }
    ensures each { OnOk result (AreRecords records.old.items → AreRecords records.new.items) }
    ensures early { IfOk result (λ r. IsEarly rest records.old.items → IsEarly r records.new.items) }
    ensures bad { (at : ℕ) → IsErrOf result (Stop.Bad at) → AreRecords records.old.items → IsFirstBad (join_piece (record { records = texts_of records.old.items; begun = unfinished old.now rest }) piece.now).records at }
{
    let bytes = piece.bytes.as_slice();
    match piece.part {
        Part::Only => {
            read_record(alloc, records, bytes)?;
            Ok(Rest::Nothing)
        }
        Part::First => Ok(Rest::Begun(Bytes::from_slice(alloc, bytes)?)),
        Part::Middle => Ok(longer(rest, bytes)?),
        Part::Last => {
            if let Some(whole) = ended(alloc, old, rest, bytes)? {
                read_record(alloc, records, whole.as_slice())?;
            }
            Ok(Rest::Nothing)
        }
    }
}

/// Joins the pieces of a page behind a record that is unfinished or none, and reads the records that they end.
pub fn read_pieces(alloc: Global, old: &Option<Bytes>, pieces: &[Piece]) -> Result<Read, Stop>
    ensures joined { IfOk result (λ read. joined_from (record { records = []; begun = old.now }) pieces.now ≡ record { records = texts_of read.records.items; begun = unfinished old.now read.rest }) }
    ensures each { IfOk result (λ read. AreRecords read.records.items) }
    ensures early { IfOk result (λ read. IsEarly read.rest read.records.items) }
    ensures bad { (at : ℕ) → IsErrOf result (Stop.Bad at) → IsFirstBad (joined_from (record { records = []; begun = old.now }) pieces.now).records at }
{
    let mut records = Vec::new(alloc);
    let mut rest = Rest::Longer(Bytes::from_vec(Vec::new(alloc)));
    for piece in pieces {
        rest = read_piece(alloc, old, &mut records, rest, piece)?;
    }
    Ok(Read { records, rest })
}
