//! The texts of numbers, bytes, ids and bodies.

ghost use Rattle.std.specs.Prelude.{◌≡◌, ◌==◌, ◌++◌, OnOk};
ghost use Rattle.std.specs.List.{list_all};
ghost use Rattle.std.specs.Fmt.{decimal};
ghost use Rattle.hex.specs.Hex.{encode_lower};
ghost use Rattle.qsg_answers.specs.Texts.{id_text, identifier_text, ends_text, body_text, flag_text};

use itoa::Buffer;
use qsg_num::EntryId;
use std::alloc::AllocError;

/// The longest body that is printed whole, in bytes.
const WHOLE_BODY: usize = 32;

/// Bytes that are printed of each end of a longer one.
const BODY_END: usize = 16;

/// Appends a text. The calls below append what their names say, in the same way.
pub fn push_text(out: &mut Vec<u8>, text: &[u8]) -> Result<(), AllocError>
    ensures { OnOk result (out.new.items ≡ out.old.items ++ text.now) }
{
    out.extend_from_slice(text)
}

/// A number in decimal.
pub fn push_number(out: &mut Vec<u8>, number: u64) -> Result<(), AllocError>
    ensures { OnOk result (out.new.items ≡ out.old.items ++ decimal number) }
{
    out.extend_from_slice(Buffer::new().format(number).as_bytes())
}

/// A text, and a number in decimal behind it.
pub fn push_counted(out: &mut Vec<u8>, text: &[u8], number: u64) -> Result<(), AllocError>
    ensures { OnOk result (out.new.items ≡ out.old.items ++ text.now ++ decimal number) }
{
    push_text(out, text)?;
    push_number(out, number)
}

/// An id: its epoch, a dot and its number.
pub fn push_id(out: &mut Vec<u8>, id: EntryId) -> Result<(), AllocError>
    ensures { OnOk result (out.new.items ≡ out.old.items ++ id_text id) }
{
    push_number(out, u64::from(id.epoch()))?;
    push_counted(out, b".", id.seq())
}

/// 1 for true and 0 for false.
pub fn push_flag(out: &mut Vec<u8>, set: bool) -> Result<(), AllocError>
    ensures { OnOk result (out.new.items ≡ out.old.items ++ flag_text set) }
{
    push_text(out, if set { b"1" } else { b"0" })
}

/// Bytes in lower-case hexadecimal digits.
fn push_hex(out: &mut Vec<u8>, bytes: &[u8]) -> Result<(), AllocError>
    ensures { OnOk result (out.new.items ≡ out.old.items ++ encode_lower bytes.now) }
{
    let digits = hex::encode(*out.allocator(), bytes)?;
    out.extend_from_slice(digits.as_bytes())
}

/// Whether an identifier is none.
fn is_zero(bytes: &[u8]) -> bool
    ensures { result ≡ list_all (λ b. b == 0) bytes.now }
{
    bytes.iter().all(|b| *b == 0)
}

/// An identifier: its bytes, or a dash where all are zero.
pub fn push_identifier(out: &mut Vec<u8>, bytes: &[u8]) -> Result<(), AllocError>
    ensures { OnOk result (out.new.items ≡ out.old.items ++ identifier_text bytes.now) }
{
    if is_zero(bytes) {
        push_text(out, b"-")
    } else {
        push_hex(out, bytes)
    }
}

/// The bytes of a body; of a long one both ends.
fn push_ends(out: &mut Vec<u8>, body: &[u8]) -> Result<(), AllocError>
    ensures { OnOk result (out.new.items ≡ out.old.items ++ ends_text body.now) }
{
    if body.len() <= WHOLE_BODY {
        push_hex(out, body)
    } else {
        push_hex(out, &body[..BODY_END])?;
        push_text(out, b"-")?;
        push_hex(out, &body[body.len() - BODY_END..])
    }
}

/// A body: its length, and its bytes where it has any.
#[tactic(auto, unfolding(crate::specs::Texts::body_text))]
pub fn push_body(out: &mut Vec<u8>, body: &[u8]) -> Result<(), AllocError>
    ensures { OnOk result (out.new.items ≡ out.old.items ++ body_text body.now) }
{
    push_number(out, body.len() as u64)?;
    if body.is_empty() {
        return Ok(());
    }
    push_text(out, b" ")?;
    push_ends(out, body)
}
