//! What a get is given of an entry, and the room that it makes for it first.

ghost use Rattle.std.specs.Prelude.{◌≡◌, ◌≤◌, ◌+◌, [], IfOk, length, take, vec_len, vec_capacity};

use qsg_lists::{Entry, Head, Lost, Place};
use qsg_num::{Block, Blocks, Body, Bytes, EntryId, INLINE_BODY, Member, QueueName};
use std::alloc::{AllocError, Global};
use std::marker::Model;

/// Blocks of the longest body, of 8,192 bytes each, which are the smallest ones.
pub const LONGEST_LIST: usize = 512;

/// The body of an entry that a get took.
#[derive(Debug, Drop)]
pub enum TakenBody {
    /// It stood in the entry: this is a copy.
    Inside(Body),
    /// It stands in these blocks of the owner's data set, and has so many bytes.
    Outside {
        owner: Member,
        blocks: Blocks,
        length: u32,
    },
}

/// An entry that a get took, copied.
#[derive(Debug, Drop)]
pub struct Taken {
    pub id: EntryId,
    pub head: Head,
    pub body: TakenBody,
}

/// Why a get took no entry, though there may be one. All is as it was.
#[derive(Clone, Copy, Debug, PartialEq, Eq)]
pub enum GetRefused {
    /// The connection isn't served.
    Lost(Lost),
    /// There is no memory for what it would take.
    NoMemory,
}

/// Room for what a get of a queue takes: the name of the queue, the longest body that an entry keeps, and the blocks
/// of the longest body.
#[derive(Drop)]
pub struct Room {
    queue: QueueName,
    body: Vec<u8>,
    blocks: Vec<Block>,
}

impl Model for Room {
    ghost use Rattle.std.specs.Prelude.{List, ℕ, ◌≡◌, ◌≤◌, [], vec_len, vec_capacity};

    ghost Value = { List ℕ };

    ghost view = { λ r. r.queue };

    ghost invariant = { λ r. (r.body.items ≡ []) × (64512 ≤ vec_capacity r.body) × (r.blocks.items ≡ []) × (512 ≤ vec_capacity r.blocks) };
}

/// A copy of bytes, in a `Vec` with room for them.
fn filled(mut room: Vec<u8>, bytes: &[u8]) -> Bytes
    requires empty { room.items ≡ [] }
    requires fits { length bytes.now ≤ vec_capacity room }
    ensures { result ≡ bytes.now }
{
    let copied = room.extend_from_slice(bytes).is_ok();
    prove!(copied);
    Bytes::from_vec(room)
}

/// A copy of a list of blocks, as far as it goes, in a `Vec` with room for the longest one.
fn listed(mut room: Vec<Block>, blocks: &[Block]) -> Blocks
    requires empty { room.items ≡ [] }
    requires fits { LONGEST_LIST ≤ vec_capacity room }
    ensures { result ≡ take LONGEST_LIST blocks.now }
{
    let few = LONGEST_LIST.min(blocks.len());
    let copied = room.extend_from_slice(&blocks[..few]).is_ok();
    prove!(copied);
    Blocks::from_vec(room)
}

impl Room {
    ghost use Rattle.qsg_lists.specs.declared.parts.Entry.{Entry};
    ghost use Rattle.qsg_manager.specs.Getting.{body_taken, taken_of};

    /// Room for an entry of a queue.
    pub fn new(alloc: Global, queue: &QueueName) -> Result<Room, AllocError>
        ensures { IfOk result (λ room. room ≡ queue.now) }
    {
        Ok(Room {
            queue: queue.clone()?,
            body: Vec::with_capacity(alloc, INLINE_BODY as usize)?,
            blocks: Vec::with_capacity(alloc, LONGEST_LIST)?,
        })
    }

    /// The queue whose entry there is room for.
    pub fn queue(&self) -> &str
        ensures { result.now ≡ self.now }
    {
        self.queue.as_str()
    }

    /// A copy of an entry of that queue. Takes no memory.
    pub fn fill(self, entry: &Entry) -> Taken
        requires { entry.now.head.queue ≡ self }
        ensures { result ≡ taken_of entry.now }
    {
        let Room {
            queue,
            body,
            blocks,
        } = self;
        Taken {
            id: entry.id,
            head: Head {
                queue,
                priority: entry.head.priority,
                persistent: entry.head.persistent,
                msg_id: entry.head.msg_id,
                correl_id: entry.head.correl_id,
            },
            body: Room::copy(body, blocks, &entry.place),
        }
    }

    /// A copy of a body, or of its place, in room for it.
    fn copy(body: Vec<u8>, blocks: Vec<Block>, place: &Place) -> TakenBody
        requires no_bytes { body.items ≡ [] }
        requires bytes { INLINE_BODY ≤ vec_capacity body }
        requires no_blocks { blocks.items ≡ [] }
        requires blocks { LONGEST_LIST ≤ vec_capacity blocks }
        ensures { result ≡ body_taken place.now }
    {
        match place {
            Place::Inline(inside) => {
                TakenBody::Inside(Body::from_bytes(filled(body, inside.as_slice())))
            }
            Place::Offloaded {
                owner,
                blocks: list,
                length,
            } => TakenBody::Outside {
                owner: *owner,
                blocks: listed(blocks, list.as_slice()),
                length: *length,
            },
        }
    }
}
