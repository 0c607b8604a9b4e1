//! What a report tells of the state of a group.

use qsg_lists::{Entry, State};
use qsg_num::{Actor, Incarnation, Member, Name, QueueName, StructNo};
use qsg_requests::Cause;

/// The state of a group.
#[derive(Debug, Drop)]
pub struct Shown {
    /// Its name.
    pub group: Name,
    /// The members, in order of their numbers.
    pub members: Vec<ShownMember>,
    /// The structures, in order of their numbers.
    pub structures: Vec<ShownStructure>,
    /// The queues, in order of definition.
    pub queues: Vec<ShownQueue>,
    /// The data sets, in order of their members and then of their structures.
    pub datasets: Vec<ShownDataSet>,
    /// The incarnations that failed, in order of their members and then of their numbers.
    pub failed: Vec<ShownFailure>,
    /// The actors that have work left, in their order; none where the group is finished.
    pub waits: Vec<ShownWait>,
}

/// A member.
#[derive(Debug, Drop)]
pub struct ShownMember {
    pub name: Name,
    pub up: bool,
    /// Its last incarnation.
    pub last: Incarnation,
    /// Pages of its log before the first whose gate is shut.
    pub pages: u32,
    /// Pages of its log.
    pub size: u32,
}

/// A list structure.
#[derive(Debug, Drop)]
pub struct ShownStructure {
    pub name: Name,
    pub state: State,
    pub epoch: u32,
    /// Elements that its entries take.
    pub used: u32,
    /// Elements that it has.
    pub capacity: u32,
    /// Its entries, in order of their ids.
    pub entries: Vec<Entry>,
}

/// A queue.
#[derive(Debug, Drop)]
pub struct ShownQueue {
    pub name: QueueName,
    /// The messages that it has.
    pub depth: u32,
}

/// A member's data set of a structure.
#[derive(Clone, Copy, Debug, PartialEq, Eq)]
pub struct ShownDataSet {
    pub member: Member,
    pub structure: StructNo,
    /// Blocks that are used; None for a member that isn't up.
    pub used: Option<u32>,
    /// Blocks that it has.
    pub blocks: u32,
}

/// An incarnation that failed.
#[derive(Clone, Copy, Debug, PartialEq, Eq)]
pub struct ShownFailure {
    pub member: Member,
    pub incarnation: Incarnation,
    /// Whether its units are resolved.
    pub resolved: bool,
    /// How many of its entries each member settled, in order of their numbers.
    pub counts: [u32; 8],
}

/// An actor whose step waits.
#[derive(Clone, Copy, Debug, PartialEq, Eq)]
pub struct ShownWait {
    pub actor: Actor,
    pub cause: Cause,
}
