//! Readers of single fields: the value that begins the bytes and what is behind it, or how many bytes are
//! left where the grammar is left.

ghost use Rattle.std.specs.Prelude.{◌≡◌, ◌*◌, ◌+◌, ◌≤◌, ◌<◌, ◌^◌, ◌++◌, ℕ, IfOk, string_bytes, length, take, true};
ghost use Rattle.std.specs.Int.{w32, w64};
ghost use Rattle.std.specs.List.{prefix_len, list_all};
ghost use Rattle.qsg_num.specs.Seats.{structure_at, priority_at};
ghost use Rattle.qsg_num.specs.Names.{is_queue_byte};
ghost use Rattle.qsg_msg.specs.Reading.{Gives, choice_at, tested, bytes_at, number_at, queue_at, body_at, digit_at, length_at, bit_at, is_name_length, passing_at};

use crate::fault::Stop;
use qsg_num::{Body, Bytes, LONGEST_BODY, Name, Priority, QUEUE_NAME, QueueName, StructNo};
use std::alloc::{AllocError, Global};

/// So many bytes.
pub fn read_bytes(count: usize, bytes: &[u8]) -> Result<(&[u8], &[u8]), Stop>
    ensures gives { Gives (λ x. (x.0.now, x.1.now)) result (bytes_at count bytes.now) }
    ensures length { IfOk result (λ x. length x.0.now ≡ count) }
{
    if bytes.len() < count {
        return Err(Stop::Bad(0));
    }
    Ok(bytes.split_at(count))
}

/// A number of eight bytes.
pub fn read_u64(bytes: &[u8]) -> Result<(u64, &[u8]), Stop>
    ensures { Gives (λ x. (x.0, x.1.now)) result (number_at w64 bytes.now) }
{
    if bytes.len() < 8 {
        return Err(Stop::Bad(0));
    }
    let (front, rest) = bytes.split_at(8);
    let number = u64::from_be_bytes([
        front[0], front[1], front[2], front[3], front[4], front[5], front[6], front[7],
    ]);
    Ok((number, rest))
}

/// A number of four bytes.
pub fn read_u32(bytes: &[u8]) -> Result<(u32, &[u8]), Stop>
    ensures { Gives (λ x. (x.0, x.1.now)) result (number_at w32 bytes.now) }
{
    if bytes.len() < 4 {
        return Err(Stop::Bad(0));
    }
    let (front, rest) = bytes.split_at(4);
    let number = u32::from_be_bytes([front[0], front[1], front[2], front[3]]);
    Ok((number, rest))
}

/// A structure's number.
pub fn read_structure(bytes: &[u8]) -> Result<(StructNo, &[u8]), Stop>
    ensures { Gives (λ x. (x.0, x.1.now)) result (choice_at structure_at bytes.now) }
{
    let [byte, rest @ ..] = bytes else {
        return Err(Stop::Bad(0));
    };
    match StructNo::new(*byte) {
        Some(structure) => Ok((structure, rest)),
        None => Err(Stop::Bad(bytes.len())),
    }
}

/// A priority.
pub(crate) fn priority_of(bytes: &[u8]) -> Result<(Priority, &[u8]), Stop>
    ensures { Gives (λ x. (x.0, x.1.now)) result (choice_at priority_at bytes.now) }
{
    let [byte, rest @ ..] = bytes else {
        return Err(Stop::Bad(0));
    };
    match Priority::new(*byte) {
        Some(priority) => Ok((priority, rest)),
        None => Err(Stop::Bad(bytes.len())),
    }
}

/// 0 or 1.
pub(crate) fn bit_of(bytes: &[u8]) -> Result<(bool, &[u8]), Stop>
    ensures { Gives (λ x. (x.0, x.1.now)) result (choice_at bit_at bytes.now) }
{
    match bytes {
        [] => Err(Stop::Bad(0)),
        [0, rest @ ..] => Ok((false, rest)),
        [1, rest @ ..] => Ok((true, rest)),
        [_, ..] => Err(Stop::Bad(bytes.len())),
    }
}

/// An id of 24 bytes.
pub(crate) fn id_of(bytes: &[u8]) -> Result<([u8; 24], &[u8]), Stop>
    ensures { Gives (λ x. (x.0, x.1.now)) result (bytes_at 24 bytes.now) }
{
    let (front, rest) = read_bytes(24, bytes)?;
    let mut id = [0; 24];
    id.copy_from_slice(front);
    Ok((id, rest))
}

/// The number whose digits are those before and the next byte, if with zeros in place of the digits that
/// are still to come it isn't past a limit. A digit of this place counts `unit`.
#[tactic(auto, unfolding(crate::specs::Reading::digit_at))]
fn digit_of(limit: u32, unit: u32, before: u32, bytes: &[u8]) -> Result<(u32, &[u8]), Stop>
    requires before { before < 2 ^ 24 }
    ensures gives { Gives (λ x. (x.0, x.1.now)) result (digit_at limit unit before bytes.now) }
    ensures size { IfOk result (λ x. x.0 ≤ before * 256 + 255) }
    ensures bound { IfOk result (λ x. x.0 * unit ≤ limit) }
{
    let [byte, rest @ ..] = bytes else {
        return Err(Stop::Bad(0));
    };
    let number = before * 256 + u32::from(*byte);
    if u64::from(number) * u64::from(unit) > u64::from(limit) {
        return Err(Stop::Bad(bytes.len()));
    }
    Ok((number, rest))
}

/// A number of four bytes, at most the limit.
#[tactic(auto, unfolding(crate::specs::Reading::length_at))]
fn length_of(limit: u32, bytes: &[u8]) -> Result<(u32, &[u8]), Stop>
    ensures gives { Gives (λ x. (x.0, x.1.now)) result (length_at limit bytes.now) }
    ensures bound { IfOk result (λ x. x.0 ≤ limit) }
{
    let (number, rest) = digit_of(limit, 1 << 24, 0, bytes)?;
    let (number, rest) = digit_of(limit, 1 << 16, number, rest)?;
    let (number, rest) = digit_of(limit, 1 << 8, number, rest)?;
    digit_of(limit, 1, number, rest)
}

/// The body of a message: its length and its bytes.
#[tactic(auto, unfolding(crate::specs::Reading::body_at))]
pub(crate) fn body_of(alloc: Global, bytes: &[u8]) -> Result<(Body, &[u8]), Stop>
    ensures { Gives (λ x. (x.0, x.1.now)) result (body_at bytes.now) }
{
    let (length, rest) = length_of(LONGEST_BODY, bytes)?;
    let (body, rest) = read_bytes(length as usize, rest)?;
    Ok((Body::from_slice(alloc, body)?, rest))
}

/// Whether a byte may stand in the name of a queue.
fn is_queue_byte(byte: u8) -> bool
    ensures { result ≡ is_queue_byte byte }
{
    byte.is_ascii_alphanumeric() || matches!(byte, b'.' | b'/' | b'_' | b'%')
}

/// How many bytes from the front on may stand in the name of a queue.
fn count_queue_bytes(bytes: &[u8]) -> usize
    ensures { result ≡ prefix_len is_queue_byte bytes.now }
{
    bytes.iter().take_while(|b| is_queue_byte(**b)).count()
}

/// So many bytes from the front on, or all.
fn front_of(count: usize, bytes: &[u8]) -> &[u8]
    ensures front { result.now ≡ take count bytes.now }
    ensures bounds { (length result.now ≤ count) × (length result.now ≤ length bytes.now) }
{
    if bytes.len() < count {
        return bytes;
    }
    bytes.split_at(count).0
}

/// So many bytes, all of which may stand in the name of a queue.
#[tactic(auto, using(crate::proofs::Passing::passes_within, crate::proofs::Passing::all_pass))]
fn queue_bytes(count: usize, bytes: &[u8]) -> Result<(&[u8], &[u8]), Stop>
    ensures gives { Gives (λ x. (x.0.now, x.1.now)) result (passing_at is_queue_byte count bytes.now) }
    ensures length { IfOk result (λ x. length x.0.now ≡ count) }
    ensures pass { IfOk result (λ x. list_all is_queue_byte x.0.now ≡ true) }
{
    let front = front_of(count, bytes);
    let passing = count_queue_bytes(front);
    if passing < count {
        return Err(Stop::Bad(bytes.len() - passing));
    }
    Ok(bytes.split_at(count))
}

/// The text of these characters.
fn text_of(alloc: Global, bytes: &[u8]) -> Result<String, AllocError>
    requires { list_all is_queue_byte bytes.now ≡ true }
    ensures { IfOk result (λ text. string_bytes text ≡ bytes.now) }
{
    let mut text = String::new(alloc);
    for byte in bytes {
        text.push(char::from(*byte))?;
    }
    Ok(text)
}

/// The name of a queue: its length and its characters.
#[tactic(auto, unfolding(crate::specs::Reading::queue_at))]
pub(crate) fn queue_of(alloc: Global, bytes: &[u8]) -> Result<(QueueName, &[u8]), Stop>
    ensures { Gives (λ x. (x.0, x.1.now)) result (queue_at bytes.now) }
{
    let [length, rest @ ..] = bytes else {
        return Err(Stop::Bad(0));
    };
    if *length < 1 || *length > QUEUE_NAME as u8 {
        return Err(Stop::Bad(bytes.len()));
    }
    let (name, rest) = queue_bytes(usize::from(*length), rest)?;
    let name = Name::from_string(text_of(alloc, name)?);
    match QueueName::from_name(name) {
        Ok(queue) => Ok((queue, rest)),
        Err(_) => Err(Stop::Bad(bytes.len())),
    }
}
