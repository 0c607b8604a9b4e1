//! The body of a put, by its bytes or by its size.

ghost use Rattle.std.specs.Prelude.{◌≡◌, ◌≤◌, IfOk, length, map, vec_len, vec_capacity};
ghost use Rattle.std.specs.List.{range_with_len};
ghost use Rattle.qsg_directives.specs.Bodies.{byte_at, sized, body_of, IsSized};

use qsg_num::{Body, Bytes, LONGEST_BODY};
use qsg_objects::BodyWord;
use std::alloc::{AllocError, Global};

/// Bytes of a body by its size repeat after so many.
const CYCLE: u32 = 251;

/// A body of so many bytes; byte i is i mod 251.
fn sized(alloc: Global, length: u32) -> Result<Body, AllocError>
    requires { length ≤ LONGEST_BODY }
    ensures { IfOk result (λ body. body ≡ sized length) }
{
    let mut bytes = Vec::with_capacity(alloc, length as usize)?;
    for i in 0..length {
        bytes.push((i % CYCLE) as u8)?;
    }
    Ok(Body::from_bytes(Bytes::from_vec(bytes)))
}

/// The body of a put, copied where its bytes are given. It takes time by the body's length.
pub fn body_of(alloc: Global, word: &BodyWord) -> Result<Body, AllocError>
    requires { IsSized word.now }
    ensures { IfOk result (λ body. body ≡ body_of word.now) }
{
    match word {
        BodyWord::Given(body) => body.clone(),
        BodyWord::Size(length) => sized(alloc, *length),
    }
}
