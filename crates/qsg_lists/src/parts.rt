//! What entries are made of, and what commands ask and answer.

ghost use Rattle.std.specs.Prelude.{◌≡◌, ◌≤◌};

use qsg_num::{
    Blocks, ELEMENT_BYTES, EntryId, Incarnation, InlineBody, Member, Priority, QueueName, StructNo,
    UnitName,
};

/// Whether a structure serves its users.
#[derive(Clone, Copy, Debug, PartialEq, Eq)]
pub enum State {
    /// It does.
    Active,
    /// It was lost, and its entries with it.
    Failed,
    /// This incarnation of a member restores it.
    InRecover(Member, Incarnation),
}

/// Who may have an entry.
#[derive(Clone, Copy, Debug, PartialEq, Eq)]
pub enum Mark {
    /// Any get.
    Visible,
    /// None, until this unit of work, which put it, ends.
    PutBy(UnitName),
    /// None, until this unit of work, which got it, ends.
    GotBy(UnitName),
    /// None: it is removed, and its blocks are still to be freed.
    Cleanup,
}

impl Mark {
    ghost use Rattle.qsg_lists.specs.Marks.{names_unit};

    /// Whether this is a mark of that unit.
    pub fn is_of(&self, unit: &UnitName) -> bool
        ensures { result ≡ names_unit unit.now self.now }
    {
        match self {
            Mark::PutBy(other) | Mark::GotBy(other) => *other == *unit,
            Mark::Visible | Mark::Cleanup => false,
        }
    }
}

/// Where the body of a message is.
#[derive(Debug, Drop)]
pub enum Place {
    /// In the entry itself.
    Inline(InlineBody),
    /// In blocks of the owner's data set, filled in order; its length is in bytes.
    Offloaded {
        owner: Member,
        blocks: Blocks,
        length: u32,
    },
}

/// Elements of an entry whose body is offloaded.
const OFFLOADED_ELEMENTS: u32 = 2;

impl Place {
    ghost use Rattle.qsg_lists.specs.Entries.{cost_of};

    /// The elements that an entry with this body takes.
    pub fn cost(&self) -> u32
        ensures value { result ≡ cost_of self.now }
        ensures bound { result ≤ 253 }
    {
        match self {
            Place::Inline(body) => 1 + (body.len() + (ELEMENT_BYTES - 1)) / ELEMENT_BYTES,
            Place::Offloaded { .. } => OFFLOADED_ELEMENTS,
        }
    }
}

/// What a message says of itself. The types of the fields keep their ranges.
#[derive(Debug, Drop)]
pub struct Head {
    pub queue: QueueName,
    pub priority: Priority,
    pub persistent: bool,
    pub msg_id: [u8; 24],
    pub correl_id: [u8; 24],
}

/// A message in a structure.
#[derive(Debug, Drop)]
pub struct Entry {
    pub id: EntryId,
    pub head: Head,
    pub place: Place,
    pub mark: Mark,
}

/// What a get asks for; None asks for nothing.
#[derive(Clone, Copy, Debug, PartialEq, Eq)]
pub struct Selector {
    pub msg_id: Option<[u8; 24]>,
    pub correl_id: Option<[u8; 24]>,
}

impl Selector {
    ghost use Rattle.qsg_lists.specs.Entries.{meets};

    /// Whether the head has each id that is asked for.
    pub fn matches(&self, head: &Head) -> bool
        ensures { result ≡ meets self.now head.now }
    {
        let message = match &self.msg_id {
            Some(id) => *id == head.msg_id,
            None => true,
        };
        let correlation = match &self.correl_id {
            Some(id) => *id == head.correl_id,
            None => true,
        };
        message && correlation
    }
}

/// The use of a structure in one epoch.
#[derive(Clone, Copy, Debug, PartialEq, Eq)]
pub struct Connection {
    pub structure: StructNo,
    pub epoch: u32,
}

/// What a user of a structure is told at its first use.
#[derive(Clone, Copy, Debug, PartialEq, Eq)]
pub struct Seen {
    pub connection: Connection,
    /// Elements in use.
    pub used: u32,
    /// Elements in all.
    pub capacity: u32,
    /// The id that was given last in this epoch.
    pub top: EntryId,
}

/// A user of a structure isn't served: it isn't active, or its epoch isn't the connection's. This is how it is.
#[derive(Clone, Copy, Debug, PartialEq, Eq)]
pub struct Lost {
    pub state: State,
    pub epoch: u32,
}

/// What a command that acts on one entry did.
#[derive(Clone, Copy, Debug, PartialEq, Eq)]
pub enum Settled {
    /// It acted.
    Done,
    /// It left all as it was, since the entry has this mark, or isn't there.
    NotYours(Option<Mark>),
}

/// Why an entry isn't added.
#[derive(Clone, Copy, Debug, PartialEq, Eq)]
pub enum WriteWhy {
    /// The user isn't served.
    Lost(Lost),
    /// It needs more elements than are free.
    Full { need: u32, free: u32 },
    /// Its queue has as many entries as it may have.
    QueueFull { depth: u32 },
    /// There is no memory for it.
    NoMemory,
}

/// An entry isn't added, and all is as it was. What it was to be made of comes back.
#[derive(Debug, Drop)]
pub struct WriteRefused {
    pub why: WriteWhy,
    pub head: Head,
    pub place: Place,
}

/// A structure isn't active. This is its state.
#[derive(Clone, Copy, Debug, PartialEq, Eq)]
pub struct NotActive {
    pub state: State,
}

/// Why a recovery doesn't begin.
#[derive(Clone, Copy, Debug, PartialEq, Eq)]
pub enum RecoverFault {
    /// The structure is active; this is its state.
    NotFailed(State),
    /// This member, which lives, recovers it.
    InRecover(Member),
}
