//! Bytes in hexadecimal digits of either case.

ghost use Rattle.std.specs.Prelude.{◌≡◌, IfOk};
ghost use Rattle.mqsc_values.specs.Hexadecimal.{bytes_of, id_of};

use hex::{FromHex, FromHexError};
use qsg_num::Bytes;
use std::alloc::{AllocError, Global};

/// The bytes that hexadecimal digits write, two a byte; None where the text isn't an even number of them.
pub fn hex_bytes(alloc: Global, text: &[u8]) -> Result<Option<Bytes>, AllocError>
    ensures { IfOk result (λ bytes. bytes ≡ bytes_of text.now) }
{
    match hex::decode(alloc, text) {
        Ok(bytes) => Ok(Some(Bytes::from_vec(bytes))),
        Err(error) => match error {
            FromHexError::OutOfMemory => Err(AllocError),
            _ => Ok(None),
        },
    }
}

/// The id that 48 hexadecimal digits write; None where the text isn't those.
pub fn hex_id(text: &[u8]) -> Option<[u8; 24]>
    ensures { result ≡ id_of text.now }
{
    <[u8; 24] as FromHex>::from_hex(text).ok()
}
