//! The requests of a task.

use qsg_lists::Selector;
use qsg_num::{Body, Priority, QueueName};

/// What a PUT says of its message. None of priority or of persistent means the queue's default.
#[derive(Debug, Drop)]
pub struct PutWords {
    pub queue: QueueName,
    pub body: Body,
    pub priority: Option<Priority>,
    pub persistent: Option<bool>,
    pub msg_id: [u8; 24],
    pub correl_id: [u8; 24],
}

/// One request of a task that works on its unit.
#[derive(Debug, Drop)]
pub enum Request {
    /// Puts a message, in the task's unit.
    Put(PutWords),
    /// Gets the first message that has the ids that are asked for, in the task's unit.
    Get { queue: QueueName, select: Selector },
    /// Ends the unit and keeps what it did.
    Commit,
    /// Ends the unit and undoes what it did.
    Backout,
}
