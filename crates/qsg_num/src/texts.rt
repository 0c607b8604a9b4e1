//! Names of queues, and bodies of messages. Each keeps its bounds, and contracts see it as its bytes.

ghost use Rattle.std.specs.Prelude.{◌≡◌, ℕ, ◌+◌, ◌≤◌, ◌↔◌, List, IsTrue, true, IsOk, IfOk, IfErr, length, nat_eq, ◌==◌};
ghost use Rattle.std.specs.List.{list_all};
ghost use Rattle.std.specs.Cmp.Lexicographic.{pointwise};
ghost use Rattle.std.proofs.Common.{rules};
ghost use Rattle.std.specs.Cmp.Rules.{comparing};
ghost use Rattle.qsg_num.specs.Names.{is_queue_byte, is_queue_name};

use crate::limits::{INLINE_BODY, LONGEST_BODY, QUEUE_NAME};
use crate::lists::{Bytes, Name};
use std::alloc::{AllocError, Global};
use std::marker::Model;

/// The name of a queue: 1 to 48 of letters, digits, `.`, `/`, `_` and `%`.
#[derive(Debug, Drop, Clone)]
pub struct QueueName {
    name: Name,
}

impl Model for QueueName {
    ghost use Rattle.std.specs.Prelude.{◌≡◌, true, List, ℕ};
    ghost use Rattle.qsg_num.specs.Names.{is_queue_name};

    ghost Value = { List ℕ };

    ghost view = { λ q. q.name };

    ghost invariant = { λ q. is_queue_name q.name ≡ true };
}

/// Whether a byte may stand in the name of a queue.
fn is_queue_byte(byte: u8) -> bool
    ensures { result ≡ is_queue_byte byte }
{
    byte.is_ascii_alphanumeric() || matches!(byte, b'.' | b'/' | b'_' | b'%')
}

fn are_queue_bytes(bytes: &[u8]) -> bool
    ensures { result ≡ list_all is_queue_byte bytes.now }
{
    bytes.iter().all(|b| is_queue_byte(*b))
}

impl QueueName {
    /// Whether a text is the name of a queue.
    pub fn is_name(text: &str) -> bool
        ensures { result ≡ is_queue_name text.now }
    {
        let bytes = text.as_bytes();
        1 <= bytes.len() && bytes.len() <= QUEUE_NAME && are_queue_bytes(bytes)
    }

    /// The name of a queue; an `Err` hands back what is no such name.
    pub fn from_name(name: Name) -> Result<QueueName, Name>
        ensures named { IsOk result ↔ (is_queue_name name ≡ true) }
        ensures ok { IfOk result (λ q. q ≡ name) }
        ensures err { IfErr result (λ n. n ≡ name) }
    {
        if QueueName::is_name(name.as_str()) {
            Ok(QueueName { name })
        } else {
            Err(name)
        }
    }

    /// Its text.
    pub fn as_str(&self) -> &str
        ensures text { result.now ≡ self.now }
        ensures named { is_queue_name self.now ≡ true }
    {
        self.name.as_str()
    }

    /// How many bytes it has.
    pub fn len(&self) -> usize
        ensures value { result ≡ length self.now }
        ensures bounds { (1 ≤ result) × (result ≤ QUEUE_NAME) }
    {
        self.name.len()
    }

    /// Whether it is this text.
    pub fn is(&self, text: &str) -> bool
        ensures value { result ≡ pointwise nat_eq self.now text.now }
        ensures same { IsTrue result ↔ (self.now ≡ text.now) }
    {
        self.name.is(text)
    }
}

impl PartialEq for QueueName {
    ghost eq = { pointwise ◌==◌ };

    ghost laws = { Prim.search (comparing, rules) };

    fn eq(&self, other: &QueueName) -> bool {
        self.name == other.name
    }
}

/// The body of a message: 0 to 4,194,304 bytes.
#[derive(Debug, Drop, Clone)]
pub struct Body {
    bytes: Bytes,
}

impl Model for Body {
    ghost use Rattle.std.specs.Prelude.{◌≤◌, List, ℕ, length};

    ghost Value = { List ℕ };

    ghost view = { λ b. b.bytes };

    ghost invariant = { λ b. length b.bytes ≤ 4194304 };
}

impl Body {
    /// The body of these bytes. Takes no memory.
    pub fn from_bytes(bytes: Bytes) -> Body
        requires { length bytes ≤ LONGEST_BODY }
        ensures { result ≡ bytes }
    {
        Body { bytes }
    }

    /// Its bytes, given back. Takes no memory.
    pub fn into_bytes(self) -> Bytes
        ensures bytes { result ≡ self }
        ensures bound { length self ≤ LONGEST_BODY }
    {
        self.bytes
    }

    /// A copy of a slice.
    pub fn from_slice(alloc: Global, bytes: &[u8]) -> Result<Body, AllocError>
        requires { length bytes.now ≤ LONGEST_BODY }
        ensures { IfOk result (λ b. b ≡ bytes.now) }
    {
        let bytes = Bytes::from_slice(alloc, bytes)?;
        Ok(Body { bytes })
    }

    /// Its bytes.
    pub fn as_slice(&self) -> &[u8]
        ensures bytes { result.now ≡ self.now }
        ensures bound { length result.now ≤ LONGEST_BODY }
    {
        self.bytes.as_slice()
    }

    /// How many bytes it has.
    pub fn len(&self) -> u32
        ensures value { result ≡ length self.now }
        ensures bound { result ≤ LONGEST_BODY }
    {
        self.bytes.len() as u32
    }
}

/// A body that is short enough for an entry of a list structure to keep: 0 to 64,512 bytes.
#[derive(Debug, Drop, Clone)]
pub struct InlineBody {
    bytes: Bytes,
}

impl Model for InlineBody {
    ghost use Rattle.std.specs.Prelude.{◌≤◌, List, ℕ, length};

    ghost Value = { List ℕ };

    ghost view = { λ b. b.bytes };

    ghost invariant = { λ b. length b.bytes ≤ 64512 };
}

impl InlineBody {
    /// The body of these bytes. Takes no memory.
    pub fn from_bytes(bytes: Bytes) -> InlineBody
        requires { length bytes ≤ INLINE_BODY }
        ensures { result ≡ bytes }
    {
        InlineBody { bytes }
    }

    /// A copy of a slice.
    pub fn from_slice(alloc: Global, bytes: &[u8]) -> Result<InlineBody, AllocError>
        requires { length bytes.now ≤ INLINE_BODY }
        ensures { IfOk result (λ b. b ≡ bytes.now) }
    {
        let bytes = Bytes::from_slice(alloc, bytes)?;
        Ok(InlineBody { bytes })
    }

    /// Its bytes.
    pub fn as_slice(&self) -> &[u8]
        ensures bytes { result.now ≡ self.now }
        ensures bound { length result.now ≤ INLINE_BODY }
    {
        self.bytes.as_slice()
    }

    /// How many bytes it has.
    pub fn len(&self) -> u32
        ensures value { result ≡ length self.now }
        ensures bound { result ≤ INLINE_BODY }
    {
        self.bytes.len() as u32
    }
}
