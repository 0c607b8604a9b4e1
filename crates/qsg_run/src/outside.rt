//! Reading and writing to the end.

ghost use Rattle.std.specs.Prelude.{◌≡◌, ◌++◌, ◌<◌, ◌≤◌, List, ℕ, false, length, vec_len, IfOk, IfErr, OnOk, OnErr, IsTrue};
ghost use Rattle.std.specs.Io.KnownBytes.{Appends, Consumes, IsAtEnd};
ghost use Rattle.qsg_num.specs.Faults.{Rose};
ghost use Rattle.qsg_io.specs.Writes.{AppendsFront};
ghost use Rattle.qsg_run.specs.Outside.{read_limit, Reads, StopsReading};
ghost use Rattle.qsg_run.specs.declared.outside.ReadStop.TheVariants.{NoMemory, Fault};

use qsg_io::{Failed, Sink, Source};
use qsg_num::SCRIPT_BYTES;
use std::alloc::{AllocError, Global};

/// Reading ends here: one byte past the longest script, so that a longer one is known.
const READ_LIMIT: usize = SCRIPT_BYTES + 1;

/// Bytes that one read asks for, at most.
const PIECE: usize = 4096;

/// Why reading stopped before the end.
#[derive(Debug, Drop)]
pub enum ReadStop {
    NoMemory,
    /// The source failed.
    Fault,
}

impl From<AllocError> for ReadStop {
    ghost from_gives = { λ _ e. e ≡ NoMemory };

    fn from(_e: AllocError) -> ReadStop {
        ReadStop::NoMemory
    }
}

impl From<Failed> for ReadStop {
    ghost from_gives = { λ _ e. e ≡ Fault };

    fn from(_e: Failed) -> ReadStop {
        ReadStop::Fault
    }
}

/// Reads one piece more, and says whether there may be another.
fn read_piece<S: Source>(source: &mut S, bytes: &mut Vec<u8>) -> Result<bool, ReadStop>
    requires { vec_len bytes.old < read_limit }
    ensures more { OnOk result ((piece : List ℕ) × (bytes.new.items ≡ bytes.old.items ++ piece)
        × Consumes (S.left source.old) (S.left source.new) piece) }
    ensures grows { IfOk result (λ more. IsTrue more → vec_len bytes.old < vec_len bytes.new) }
    ensures end { IfOk result (λ more. more ≡ false → IsAtEnd (S.left source.new)) }
    ensures within { vec_len bytes.new ≤ read_limit }
    ensures fault { IfErr result (λ e. StopsReading (S.faults source.old) (S.faults source.new) e) }
    ensures later { S.faults source.old ≤ S.faults source.new }
{
    let mut piece = [0u8; PIECE];
    let room = PIECE.min(READ_LIMIT - bytes.len());
    let count = source.read(&mut piece[..room])?;
    bytes.extend_from_slice(&piece[..count])?;
    Ok(count > 0)
}

/// All that the source has left, or its first bytes up to the limit. Each byte is copied once, but for the
/// growth of the list.
pub fn read_all<S: Source>(alloc: Global, source: &mut S) -> Result<Vec<u8>, ReadStop>
    ensures all { IfOk result (λ bytes. Reads (S.left source.old) bytes.items) }
    ensures fault { IfErr result (λ e. StopsReading (S.faults source.old) (S.faults source.new) e) }
{
    let mut bytes = Vec::new(alloc);
    while bytes.len() < READ_LIMIT {
        if !read_piece(source, &mut bytes)? {
            return Ok(bytes);
        }
    }
    Ok(bytes)
}

/// Writes the whole text, piece by piece. An `Err` has written some first bytes of it, or none.
pub fn write_all<K: Sink>(sink: &mut K, text: &[u8]) -> Result<(), Failed>
    ensures ok { OnOk result (Appends (K.written sink.old) (K.written sink.new) text.now) }
    ensures front { OnErr result (AppendsFront (K.written sink.old) (K.written sink.new) text.now) }
    ensures fault { OnErr result (Rose (K.faults sink.old) (K.faults sink.new)) }
{
    let mut rest = text;
    while !rest.is_empty() {
        let count = sink.write(rest)?;
        rest = &rest[count..];
    }
    Ok(())
}
