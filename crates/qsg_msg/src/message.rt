//! What a message is.

use qsg_num::{Body, EntryId, Priority, QueueName, StructNo};

/// A message of a shared queue, with the part of the message descriptor that this profile has. Its key is
/// its structure and its id, since ids of two structures may be equal. The types of its fields keep their
/// ranges, so each message has a spelling.
#[derive(Debug, Drop, Clone)]
pub struct Message {
    pub id: EntryId,
    pub structure: StructNo,
    pub queue: QueueName,
    pub priority: Priority,
    pub persistent: bool,
    pub msg_id: [u8; 24],
    pub correl_id: [u8; 24],
    pub body: Body,
}
