//! Reading the pieces of a page.

ghost use Rattle.std.specs.Prelude.{◌≡◌, ◌+◌, ◌≤◌, ◌<◌, ℕ, length, take, IfOk, IsErrOf, List};
ghost use Rattle.std.specs.List.{prefix_len};
ghost use Rattle.std.specs.Bool.{OnTrue};
ghost use Rattle.qsg_msg.specs.Prefix.{IsFaultPlace};
ghost use Rattle.qsg_msg.specs.Reading.{Gives, choice_at, tested, passing_at};
ghost use Rattle.qsg_logrec.specs.declared.piece.Piece.{Piece};
ghost use Rattle.qsg_logrec.specs.Pages.{is_version, IsPageOf, IsBody};
ghost use Rattle.qsg_logrec.specs.PageReading.{part_of, fits_in, length_in, piece_at, pieces_at, used_at, is_zero, page_at};
ghost use Rattle.qsg_logrec.specs.PageDecoding.{HasPieces};

use crate::fault::PageFault;
use crate::lists::Pieces;
use crate::piece::{Part, Piece};
use qsg_msg::Stop;
use qsg_msg::fields::read_bytes;
use qsg_num::Bytes;
use std::alloc::Global;

/// Bytes of a page behind its fields.
const AREA: usize = 4088;

/// Bytes of a piece before those of its record.
const PIECE_HEAD: usize = 3;

fn read_part(bytes: &[u8]) -> Result<(Part, &[u8]), Stop>
    ensures { Gives (λ x. (x.0, x.1.now)) result (choice_at part_of bytes.now) }
{
    match bytes {
        [] => Err(Stop::Bad(0)),
        [1, rest @ ..] => Ok((Part::Only, rest)),
        [2, rest @ ..] => Ok((Part::First, rest)),
        [3, rest @ ..] => Ok((Part::Middle, rest)),
        [4, rest @ ..] => Ok((Part::Last, rest)),
        [_, ..] => Err(Stop::Bad(bytes.len())),
    }
}

/// Whether a piece of this length leaves room for no piece, or for one more.
fn fits(room: usize, length: usize) -> bool
    requires { length < 65536 }
    ensures value { result ≡ fits_in room length }
    ensures bounds { OnTrue result ((1 ≤ length) × (length + 3 ≤ room)) }
{
    1 <= length && (length + PIECE_HEAD == room || length + PIECE_HEAD + 4 <= room)
}

/// The length of a piece where so many bytes of the area in use are left.
#[tactic(auto, unfolding(crate::specs::PageReading::length_in))]
fn read_length(room: usize, bytes: &[u8]) -> Result<(usize, &[u8]), Stop>
    ensures gives { Gives (λ x. (x.0, x.1.now)) result (length_in room bytes.now) }
    ensures bounds { IfOk result (λ x. (1 ≤ x.0) × (x.0 + 3 ≤ room)) }
{
    let [high, rest @ ..] = bytes else {
        return Err(Stop::Bad(0));
    };
    let high = usize::from(*high) * 256;
    if high + PIECE_HEAD > room {
        return Err(Stop::Bad(bytes.len()));
    }
    let [low, after @ ..] = rest else {
        return Err(Stop::Bad(0));
    };
    let length = high + usize::from(*low);
    if !fits(room, length) {
        return Err(Stop::Bad(rest.len()));
    }
    Ok((length, after))
}

#[tactic(auto, unfolding(crate::specs::PageReading::piece_at))]
fn read_piece(alloc: Global, room: usize, bytes: &[u8]) -> Result<(Piece, &[u8]), Stop>
    ensures gives { Gives (λ x. (x.0, x.1.now)) result (piece_at room bytes.now) }
    ensures bounds { IfOk result (λ x. (1 ≤ length x.0.bytes) × (length x.0.bytes + 3 ≤ room)) }
{
    let (part, rest) = read_part(bytes)?;
    let (length, rest) = read_length(room, rest)?;
    let (text, rest) = read_bytes(length, rest)?;
    let piece = Piece {
        part,
        bytes: Bytes::from_slice(alloc, text)?,
    };
    Ok((piece, rest))
}

/// The pieces that fill so many bytes.
fn read_pieces(alloc: Global, used: usize, bytes: &[u8]) -> Result<(Vec<Piece>, &[u8]), Stop>
    ensures { Gives (λ x. (x.0.items, x.1.now)) result (pieces_at used used bytes.now) }
{
    let mut pieces = Vec::new(alloc);
    let mut rest = bytes;
    let mut room = used;
    while room != 0 {
        let (piece, after) = read_piece(alloc, room, rest)?;
        room -= PIECE_HEAD + piece.bytes.len();
        pieces.push(piece)?;
        rest = after;
    }
    Ok((pieces, rest))
}

fn read_version(bytes: &[u8]) -> Result<(u8, &[u8]), Stop>
    ensures { Gives (λ x. (x.0, x.1.now)) result (choice_at (tested is_version) bytes.now) }
{
    let [version, rest @ ..] = bytes else {
        return Err(Stop::Bad(0));
    };
    if *version == 1 || *version == 2 {
        return Ok((*version, rest));
    }
    Err(Stop::Bad(bytes.len()))
}

/// How many bytes of the area are in use.
#[tactic(auto, unfolding(crate::specs::PageReading::used_at))]
fn read_used(bytes: &[u8]) -> Result<(usize, &[u8]), Stop>
    ensures gives { Gives (λ x. (x.0, x.1.now)) result (used_at bytes.now) }
    ensures bound { IfOk result (λ x. x.0 ≤ AREA) }
{
    let [high, rest @ ..] = bytes else {
        return Err(Stop::Bad(0));
    };
    if *high > 15 {
        return Err(Stop::Bad(bytes.len()));
    }
    let [low, after @ ..] = rest else {
        return Err(Stop::Bad(0));
    };
    let used = usize::from(*high) * 256 + usize::from(*low);
    if used < PIECE_HEAD + 1 || used > AREA {
        return Err(Stop::Bad(rest.len()));
    }
    Ok((used, after))
}

/// So many bytes from the front on, or all.
fn front_of(count: usize, bytes: &[u8]) -> &[u8]
    ensures front { result.now ≡ take count bytes.now }
    ensures bounds { (length result.now ≤ count) × (length result.now ≤ length bytes.now) }
{
    if bytes.len() < count {
        return bytes;
    }
    bytes.split_at(count).0
}

/// How many bytes from the front on are zeros.
fn count_zeros(bytes: &[u8]) -> usize
    ensures { result ≡ prefix_len is_zero bytes.now }
{
    bytes.iter().take_while(|b| **b == 0).count()
}

/// So many zeros.
#[tactic(auto, using(crate::proofs::Areas::zeros_within))]
fn read_zeros(count: usize, bytes: &[u8]) -> Result<(&[u8], &[u8]), Stop>
    ensures { Gives (λ x. (x.0.now, x.1.now)) result (passing_at is_zero count bytes.now) }
{
    let front = front_of(count, bytes);
    let zeros = count_zeros(front);
    if zeros < count {
        return Err(Stop::Bad(bytes.len() - zeros));
    }
    Ok(bytes.split_at(count))
}

#[tactic(auto, unfolding(crate::specs::PageReading::page_at))]
fn read_page(alloc: Global, bytes: &[u8]) -> Result<(Vec<Piece>, &[u8]), Stop>
    ensures { Gives (λ x. (x.0.items, x.1.now)) result (page_at bytes.now) }
{
    let (_version, rest) = read_version(bytes)?;
    let (used, rest) = read_used(rest)?;
    let (_lap, rest) = read_bytes(4, rest)?;
    let (pieces, rest) = read_pieces(alloc, used, rest)?;
    let (_zeros, rest) = read_zeros(AREA - used, rest)?;
    Ok((pieces, rest))
}

/// The pieces of a page with this body, which is all of its bytes but the gate. Pages of version 1 and of
/// version 2 are read, of every lap.
pub fn decode_page(alloc: Global, body: &[u8]) -> Result<Pieces, PageFault>
    // The body is that of a page with these pieces.
    ensures found { IfOk result (λ pieces. IsPageOf pieces body.now) }
    // A page's pieces are read, unless memory runs out.
    ensures reads_back { (pieces : List Piece) → IsPageOf pieces body.now → HasPieces pieces result }
    // It is bad exactly where the bytes aren't the body of a page.
    ensures bad { (at : ℕ) → IsErrOf result (PageFault.BadPage at) → IsBody body.now → ⊥ }
    // The place of the fault.
    ensures place { (at : ℕ) → IsErrOf result (PageFault.BadPage at) → IsFaultPlace IsBody body.now at }
{
    match read_page(alloc, body) {
        Ok((pieces, rest)) => {
            if !rest.is_empty() {
                return Err(PageFault::BadPage {
                    at: body.len() - rest.len(),
                });
            }
            Ok(Pieces::from_vec(pieces))
        }
        Err(Stop::NoMemory) => Err(PageFault::NoMemory),
        Err(Stop::Bad(left)) => Err(PageFault::BadPage {
            at: body.len() - left,
        }),
    }
}
